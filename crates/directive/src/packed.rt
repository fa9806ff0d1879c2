//! Values that are packed in one word.
ghost use Rattle.std.specs.Prelude.{◌≡◌, ℕ, ◌≤◌, Bool, List, take, IfSome, IfOk, if◌then◌else◌, Some, None, Ok, Result};
ghost use Rattle.bits.specs.Codec.{write_answer, written};
ghost use Rattle.bits.specs.Layout.{cut, octets};
ghost use Rattle.directive.specs.Packed.{encoded_packed};
ghost use Rattle.directive.specs.declared.fault.SpduFault.{SpduFault};

use super::fault::SpduFault;
use bits::{octets_of, put_first};

/// A value that is packed in one word, of at most sixteen octets.
pub trait Packed: Copy {
    // Whether no value is wider than its field, the word of the fields, and how many octets it has.
    ghost fits: { Self → Bool };

    ghost word: { Self → ℕ };

    ghost size: { Self → ℕ };

    // The value that octets are.
    ghost read: { List ℕ → Result Self SpduFault };

    /// The word of the fields, of which reading makes this value unless it refuses the octets. None where a value is
    /// wider than its field.
    fn word(self) -> Option<u128>
        ensures word { result ≡ (if fits self then Some (word self) else None) }
        ensures undone { IfSome result (λ w. IfOk (read (cut (octets (size self)) w)) (λ v. v ≡ self)) };

    /// How many octets the value has.
    fn size(self) -> usize
        ensures size { result ≡ size self }
        ensures few { result ≤ 16 };

    /// The value that these octets are.
    fn read(octets: &[u8]) -> Result<Self, SpduFault>
        ensures { result ≡ read octets.now };
}

/// Puts the octets of a value first into the buffer, and answers how many they are. The rest of the buffer stays.
pub fn write_packed<P: Packed>(value: P, buffer: &mut [u8]) -> Result<usize, SpduFault>
    ensures answer { result ≡ write_answer SpduFault.Buffer (encoded_packed (P.fits value) (P.size value) (P.word value) P.read) buffer.old }
    ensures after { buffer.new ≡ written (encoded_packed (P.fits value) (P.size value) (P.word value) P.read) buffer.old }
    ensures undone { IfOk result (λ n. P.read (take n buffer.new) ≡ Ok value) }
{
    let word = value.word().ok_or(SpduFault::TooWide)?;
    let all = octets_of(word);
    let octets = &all[16 - value.size()..];
    P::read(octets)?;
    put_first(octets, buffer).ok_or(SpduFault::Buffer)
}
