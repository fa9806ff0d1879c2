//! Whole SPDUs: the checker, reading and writing.
ghost use Rattle.std.specs.Prelude.{◌≡◌, ◌+◌, ◌<◌, ◌≤◌, ◌∷◌, length, take, IfSome, IfOk, Ok, OnOk};
ghost use Rattle.bits.specs.Codec.{write_answer, written};
ghost use Rattle.bits.specs.Layout.{word_of};
ghost use Rattle.directive.specs.declared.fault.SpduFault.TheVariants.{Buffer};
ghost use Rattle.spdu.specs.Item.{reading};
ghost use Rattle.spdu.specs.Spdu.{encoded_spdu, read_spdu, spdu_seen, spdu_value, variable, variable_fields, variable_layout};

use super::item::{Content, SpduType, open_spdu};
use super::items::Items;
use super::report::{Report, read_report, write_report};
use bits::{Encode, assemble, put_first};
use directive::fault::SpduFault;

/// An SPDU: a report, or the data field of a type.
#[derive(Clone, Copy, PartialEq, Eq, Debug)]
pub enum Spdu<'a> {
    Report(Report),
    Variable(SpduType, &'a [u8]),
}

/// Tries a whole SPDU, directives too.
pub fn check_spdu(octets: &[u8]) -> Result<(), SpduFault>
    ensures { result ≡ (reading octets.now).ends }
{
    let mut items = Items::new(octets);
    while items.next()?.is_some() {}
    Ok(())
}

/// The SPDU that these octets are, its data field a part of them.
pub fn read_spdu(octets: &[u8]) -> Result<Spdu<'_>, SpduFault>
    ensures answer { spdu_seen result ≡ read_spdu octets.now }
    ensures undone { IfOk result (λ s. encoded_spdu (spdu_value s) ≡ Ok octets.now) }
    ensures few { OnOk result (length octets.now ≤ 16) }
{
    check_spdu(octets)?;
    match open_spdu(octets)? {
        Content::Report(octets) => Ok(Spdu::Report(read_report(octets)?)),
        Content::Field(kind, field) => Ok(Spdu::Variable(kind, field)),
    }
}

// The header octet of a variable SPDU. None where the length is wider than its field.
fn variable_word(kind: SpduType, count: usize) -> Option<u128>
    ensures answer { result ≡ word_of variable_layout (variable_fields kind count) }
    ensures small { IfSome result (λ w. (w < 256) × (count < 16)) }
{
    assemble(&[(1, 0), (3, kind as u128), (4, count as u128)])
}

// An octet and others after it, at most sixteen in all.
fn header_then(header: u8, octets: &[u8]) -> [u8; 16]
    requires { length octets.now < 16 }
    ensures { take (length octets.now + 1) result ≡ header ∷ octets.now }
{
    let mut all = [0; 16];
    all[0] = header;
    all[1..octets.len() + 1].copy_from_slice(octets);
    all
}

// Puts a variable SPDU first into the buffer. It is not `Packed`: sixteen octets of fields are more bits than `assemble` takes.
fn write_variable(kind: SpduType, octets: &[u8], buffer: &mut [u8]) -> Result<usize, SpduFault>
    ensures answer { result ≡ write_answer SpduFault.Buffer (encoded_spdu (variable kind octets.now)) buffer.old }
    ensures after { buffer.new ≡ written (encoded_spdu (variable kind octets.now)) buffer.old }
    ensures undone { IfOk result (λ n. read_spdu (take n buffer.new) ≡ Ok (variable kind octets.now)) }
{
    let count = octets.len();
    let header = variable_word(kind, count).ok_or(SpduFault::TooWide)?;
    let all = header_then(header as u8, octets);
    let whole = &all[0..count + 1];
    read_spdu(whole)?;
    put_first(whole, buffer).ok_or(SpduFault::Buffer)
}

/// Puts the octets of an SPDU first into the buffer, and answers how many they are. The rest of the buffer stays.
pub fn write_spdu(spdu: Spdu<'_>, buffer: &mut [u8]) -> Result<usize, SpduFault>
    ensures answer { result ≡ write_answer SpduFault.Buffer (encoded_spdu (spdu_value spdu.entry)) buffer.old }
    ensures after { buffer.new ≡ written (encoded_spdu (spdu_value spdu.entry)) buffer.old }
    ensures undone { IfOk result (λ n. read_spdu (take n buffer.new) ≡ Ok (spdu_value spdu.entry)) }
{
    match spdu {
        Spdu::Report(report) => write_report(report, buffer),
        Spdu::Variable(kind, octets) => write_variable(kind, octets, buffer),
    }
}

impl Encode for Spdu<'_> {
    type Fault = SpduFault;

    ghost encoded = { λ spdu. encoded_spdu (spdu_value spdu) };

    ghost no_room = { Buffer };

    // A call of its own does the work, since it promises more: that reading undoes it.
    fn write(self, buffer: &mut [u8]) -> Result<usize, SpduFault> {
        write_spdu(self, buffer)
    }
}
