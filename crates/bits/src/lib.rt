//! Layouts and bits.
//!
//! A layout is the list of the widths of its fields, the most significant first. Here is what every format of the
//! link layer is cut and assembled with: one field of a word by a shift and a mask, a word of its fields, a word of
//! octets, and the octets of a word. All of it is plain arithmetic on at most 128 bits: no layer is known here.
#![tactic(auto)]

ghost use Rattle.std.specs.Prelude.{◌≡◌, ℕ, ◌/◌, ◌%◌, ◌^◌, List, Result, ◌==◌};
ghost use Rattle.bits.specs.Codec.{put, put_answer, write_answer, written};
ghost use Rattle.bits.specs.Layout.{assembled, cut, number, octets, CutUndoesJoin, JoinUndoesCut};

/// The field of `width` bits that has `shift` bits of the word below it.
pub fn field(word: u128, shift: u32, width: u32) -> u128
    ensures { result ≡ word / 2 ^ shift % 2 ^ width }
{
    if shift > 127 {
        return 0;
    }
    let high = word >> shift;
    if width > 127 {
        return high;
    }
    high & ((1 << width) - 1)
}

/// Whether the bit is set that has so many bits of the word below it.
pub fn is_set(word: u128, below: u32) -> bool
    ensures { result ≡ (word / 2 ^ below % 2 == 1) }
{
    field(word, below, 1) == 1
}

/// The word of these fields, each a width and a value, the most significant first. None where a value is wider than
/// its field, or where there are more than 127 bits.
pub fn assemble(fields: &[(u32, u128)]) -> Option<u128>
    ensures { result ≡ assembled fields.now }
{
    let mut word: u128 = 0;
    let mut used: u32 = 0;
    for field in fields {
        let (width, value) = *field;
        if width > 127 - used || value >= 1 << width {
            return None;
        }
        word = word << width | value;
        used += width;
    }
    Some(word)
}

/// Octets as one word, the first the most significant. Of more than sixteen octets the last sixteen count.
pub fn word(octets: &[u8]) -> u128
    ensures { result ≡ number octets.now % 2 ^ 128 }
{
    let mut word: u128 = 0;
    for octet in octets {
        word = word << 8 | u128::from(*octet);
    }
    word
}

/// The sixteen octets of a word, the most significant first.
pub fn octets_of(word: u128) -> [u8; 16]
    ensures { result ≡ cut (octets 16) word }
{
    word.to_be_bytes()
}

/// Puts octets first into a buffer, and answers how many they are. None where they find no room: the buffer then stays.
pub fn put_first(octets: &[u8], buffer: &mut [u8]) -> Option<usize>
    ensures answer { result ≡ put_answer octets.now buffer.old }
    ensures after { buffer.new ≡ put octets.now buffer.old }
{
    let count = octets.len();
    if buffer.len() < count {
        return None;
    }
    buffer[0..count].copy_from_slice(octets);
    Some(count)
}

/// A value with one encoding in octets.
pub trait Encode {
    /// Why a value is not written.
    type Fault;

    // The octets of the one encoding, or why there is none.
    ghost encoded: { Self → Result (List ℕ) Self.Fault };

    // The refusal of a buffer without room for them.
    ghost no_room: { Self.Fault };

    /// Puts the octets of the value first into the buffer, and answers how many they are. The rest of the buffer stays.
    fn write(self, buffer: &mut [u8]) -> Result<usize, Self::Fault>
        ensures answer { result ≡ write_answer no_room (encoded self) buffer.old }
        ensures after { buffer.new ≡ written (encoded self) buffer.old };
}

/// Taking apart and putting together undo each other, for every layout: answers true.
pub fn layouts_hold() -> bool
    ensures cut_undoes_join { CutUndoesJoin }
    ensures join_undoes_cut { JoinUndoesCut }
{
    true
}
