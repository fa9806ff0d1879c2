//! Records that are written again, to see that they are the octets that were read.
ghost use Rattle.std.specs.Prelude.{◌≡◌, ◌^◌, ◌<◌, ◌≤◌, length, Ok, Decides};
ghost use Rattle.bits.specs.Codec.{beginning};
ghost use Rattle.frame.specs.Frame.{encoded, frame_value};
ghost use Rattle.directive.specs.Directive.{encoded_directive};
ghost use Rattle.spdu.specs.Report.{encoded_report};
ghost use Rattle.spdu.specs.Spdu.{encoded_spdu, spdu_value};

use bits::Encode;
use directive::directive::Directive;
use frame::frame::Frame;
use spdu::report::Report;
use spdu::spdu::Spdu;

/// Room for the longest frame.
const LONGEST_FRAME: usize = 2048;

/// Room for the longest SPDU.
const LONGEST_SPDU: usize = 16;

/// Room for a report.
const REPORT: usize = 2;

/// Room for the longest directive.
const LONGEST_DIRECTIVE: usize = 12;

// Whether a writing answered that it put these octets, and they come first in the buffer.
fn has_put<E: Drop>(answer: Result<usize, E>, buffer: &[u8], octets: &[u8]) -> bool
    ensures { Decides result ((answer ≡ Ok (length octets.now)) × (buffer.now ≡ beginning octets.now buffer.now)) }
{
    // By early returns: as one condition it was not proved.
    let Ok(count) = answer else {
        return false;
    };
    if count != octets.len() {
        return false;
    }
    buffer.starts_with(octets)
}

// Whether a value is written as these octets, in a buffer of so many octets, which is room enough for them.
fn is_written_as<V: Encode, const ROOM: usize>(value: V, octets: &[u8]) -> bool
where
    V::Fault: Drop,
    requires room { V.encoded value ≡ Ok octets.now → length octets.now ≤ ROOM }
    requires small { ROOM < 2 ^ 63 }
    ensures { Decides result (V.encoded value ≡ Ok octets.now) }
{
    let mut buffer = [0u8; ROOM];
    let answer = value.write(&mut buffer);
    has_put(answer, &buffer, octets)
}

// Four calls by name, since each type has its own room.
/// Whether a frame is written as these octets.
pub fn frame_is(frame: Frame<'_>, octets: &[u8]) -> bool
    ensures { Decides result (encoded (frame_value frame.entry) ≡ Ok octets.now) }
{
    is_written_as::<_, LONGEST_FRAME>(frame, octets)
}

/// Whether a report is written as these octets.
pub fn report_is(report: Report, octets: &[u8]) -> bool
    ensures { Decides result (encoded_report report ≡ Ok octets.now) }
{
    is_written_as::<_, REPORT>(report, octets)
}

/// Whether a directive is written as these octets.
pub fn directive_is(directive: Directive, octets: &[u8]) -> bool
    ensures { Decides result (encoded_directive directive ≡ Ok octets.now) }
{
    is_written_as::<_, LONGEST_DIRECTIVE>(directive, octets)
}

/// Whether an SPDU is written as these octets.
pub fn spdu_is(spdu: Spdu<'_>, octets: &[u8]) -> bool
    ensures { Decides result (encoded_spdu (spdu_value spdu.entry) ≡ Ok octets.now) }
{
    is_written_as::<_, LONGEST_SPDU>(spdu, octets)
}
