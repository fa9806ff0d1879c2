//! What can be done with any lines.
ghost use Rattle.std.specs.Prelude.{◌≡◌};
ghost use Rattle.line.specs.Line.{admission, put_answer};
ghost use Rattle.line.specs.Transfer.{Transfers};

use super::fault::LineFault;
use super::line::Line;

/// What putting this frame answers on a line that is full or not.
pub fn admission(frame: &[u8], full: bool) -> Result<(), LineFault>
    ensures { result ≡ admission full frame.now }
{
    if !(5..=2048).contains(&frame.len()) {
        return Err(LineFault::FrameSize);
    }
    if full {
        return Err(LineFault::Full);
    }
    Ok(())
}

/// What putting this frame on the line would answer.
pub fn admits<L: Line>(line: &L, frame: &[u8]) -> Result<(), LineFault>
    ensures { result ≡ put_answer (L.Line.waiting line.now) frame.now }
{
    let (waiting, limit) = line.count();
    admission(frame, waiting == limit)
}

/// Takes the oldest frame from one line and puts it on another. Answers how many octets the frame has, which come first
/// in the buffer, or none where none waited. A frame that the second line refuses has left the first, and is in the
/// buffer.
pub fn transfer<A: Line, B: Line>(
    from: &mut A,
    to: &mut B,
    buffer: &mut [u8],
) -> Result<Option<usize>, LineFault>
    ensures { Transfers (B.Line.loses to.old) (A.Line.waiting from.old) (A.Line.waiting from.new) (B.Line.waiting to.old) (B.Line.waiting to.new) buffer.old buffer.new result }
{
    let Some(count) = from.take(buffer)? else {
        return Ok(None);
    };
    to.put(&buffer[0..count])?;
    Ok(Some(count))
}
