//! Reading and writing frames.
ghost use Rattle.std.specs.Prelude.{◌≡◌, take, IfOk, Ok};
ghost use Rattle.bits.specs.Codec.{write_answer, written};
ghost use Rattle.bits.specs.Layout.{cut};
ghost use Rattle.frame.specs.Header.{header_layout};
ghost use Rattle.frame.specs.declared.fault.FrameFault.TheVariants as fault;
ghost use Rattle.frame.specs.Frame.{encoded, frame_value, read_fields, read_frame, seen};

use super::fault::FrameFault;
use super::header::{Header, header_of, header_word, is_allowed};
use bits::{Encode, field, octets_of, word};

/// A frame: its header, and its data field.
#[derive(Clone, Copy, PartialEq, Eq, Debug)]
pub struct Frame<'a> {
    pub header: Header,
    pub payload: &'a [u8],
}

// The frame of `size` octets with this header word and data field.
fn frame_of<'a>(word: u128, size: usize, payload: &'a [u8]) -> Result<Frame<'a>, FrameFault>
    ensures { seen result ≡ read_fields (cut header_layout word) size payload.now }
{
    if field(word, 38, 2) != 2 {
        return Err(FrameFault::Version);
    }
    if field(word, 8, 11) + 1 != size as u128 {
        return Err(FrameFault::Length);
    }
    if size <= 5 {
        return Err(FrameFault::NoData);
    }
    let header = header_of(word).ok_or(FrameFault::Construction)?;
    Ok(Frame { header, payload })
}

/// The frame that these octets are, its data field a part of them.
pub fn read_frame(octets: &[u8]) -> Result<Frame<'_>, FrameFault>
    ensures answer { seen result ≡ read_frame octets.now }
    ensures undone { IfOk result (λ f. encoded (frame_value f) ≡ Ok octets.now) }
{
    if octets.len() > 2048 {
        return Err(FrameFault::Size);
    }
    let (header, payload) = octets.split_at_checked(5).ok_or(FrameFault::Size)?;
    frame_of(word(header), octets.len(), payload)
}

/// Puts the octets of a frame first into the buffer, and answers how many they are. The rest of the buffer stays.
pub fn write_frame(frame: Frame<'_>, buffer: &mut [u8]) -> Result<usize, FrameFault>
    ensures answer { result ≡ write_answer FrameFault.Buffer (encoded (frame_value frame.entry)) buffer.old }
    ensures after { buffer.new ≡ written (encoded (frame_value frame.entry)) buffer.old }
    ensures undone { IfOk result (λ n. read_frame (take n buffer.new) ≡ Ok (frame_value frame.entry)) }
{
    let Frame { header, payload } = frame;
    let length = payload.len();
    let word = header_word(header, (length + 4) as u128).ok_or(FrameFault::TooWide)?;
    if length == 0 {
        return Err(FrameFault::NoData);
    }
    if !is_allowed(header.kind, header.quality, header.construction) {
        return Err(FrameFault::Construction);
    }
    if buffer.len() < length + 5 {
        return Err(FrameFault::Buffer);
    }
    let [.., a, b, c, d, e] = octets_of(word);
    buffer[..5].copy_from_slice(&[a, b, c, d, e]);
    buffer[5..length + 5].copy_from_slice(payload);
    Ok(length + 5)
}

impl Encode for Frame<'_> {
    type Fault = FrameFault;

    ghost encoded = { λ frame. encoded (frame_value frame) };

    ghost no_room = { fault.Buffer };

    // A call of its own does the work, since it promises more: that reading undoes it.
    fn write(self, buffer: &mut [u8]) -> Result<usize, FrameFault> {
        write_frame(self, buffer)
    }
}
