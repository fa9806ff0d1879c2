//! Where in a line a reader stands.
ghost use Rattle.std.specs.Prelude.{◌≡◌};
ghost use Rattle.recording.specs.Lines.{after, finished, told};

use crate::character::{Character, Digit};
use crate::fault::TextFault;

/// Where in a line a reader stands.
#[derive(Clone, Copy, PartialEq, Eq, Debug)]
pub enum Place {
    /// Before, between or after octets.
    Between,
    /// Right behind the first digit of an octet.
    Half(Digit),
    /// In a comment.
    Comment,
    /// Behind the first fault: the rest of the line says nothing.
    Faulted(TextFault),
}

impl Place {
    /// The octet that `character` finishes, if it is the second digit of one.
    pub fn finish(&self, character: &Character) -> Option<u8>
        ensures { result ≡ finished self.now character.now }
    {
        match (self, character) {
            (Place::Half(first), Character::Digit(second)) => Some(first.followed_by(*second)),
            _ => None,
        }
    }

    /// Where the reader stands after `character`, with `column` characters of the line before it.
    pub fn advance(&self, column: u64, character: &Character) -> Place
        ensures { result ≡ after column self.now character.now }
    {
        match (self, character) {
            (Place::Between, Character::Digit(first)) => Place::Half(*first),
            (Place::Between, Character::Blank) => Place::Between,
            (Place::Between, Character::Mark) => Place::Comment,
            (Place::Half(_), Character::Digit(_)) => Place::Between,
            // The lone digit is the character before this one.
            (Place::Half(_), Character::Blank | Character::Mark) => Place::Faulted(
                TextFault::HalfOctet(column),
            ),
            (Place::Between | Place::Half(_), Character::Other) => Place::Faulted(
                TextFault::NotHexadecimal(column.saturating_add(1)),
            ),
            (Place::Comment | Place::Faulted(_), _) => *self,
        }
    }

    /// What a line held that ends here, with `count` octets stored and `column` characters read.
    pub fn conclude(&self, count: usize, column: u64) -> Result<usize, TextFault>
        ensures { result ≡ told count column self.now }
    {
        match self {
            Place::Between | Place::Comment => Ok(count),
            Place::Half(_) => Err(TextFault::HalfOctet(column)),
            Place::Faulted(fault) => Err(*fault),
        }
    }
}
