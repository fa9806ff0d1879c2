//! What a character means in a line of a recording.
ghost use Rattle.std.specs.Prelude.{◌≡◌, ◌+◌, ◌*◌};
ghost use Rattle.recording.specs.Lines.{kind};

use std::marker::Model;

/// The value of a hexadecimal digit, which is below 16.
#[derive(Clone, Copy, PartialEq, Eq, Debug)]
pub struct Digit(u8);

impl Model for Digit {
    ghost use Rattle.std.specs.Prelude.{ℕ, ◌<◌};

    ghost Value = { ℕ };

    ghost view = { λ d. d.0 };

    ghost invariant = { λ d. d.0 < 16 };

    ghost inverse = { λ n. record { 0 = n } };
}

impl Digit {
    /// The octet of this digit and the one behind it.
    pub fn followed_by(self, second: Digit) -> u8
        ensures { result ≡ 16 * self + second }
    {
        16 * self.0 + second.0
    }
}

/// What a character means in a line.
#[derive(Clone, Copy, PartialEq, Eq, Debug)]
pub enum Character {
    /// A hexadecimal digit.
    Digit(Digit),
    /// Space, tab or carriage return.
    Blank,
    /// `#`, which starts a comment.
    Mark,
    /// Any other character.
    Other,
}

impl From<u8> for Character {
    ghost from_gives = { λ c meaning. meaning ≡ kind c };

    /// What a character means. The end of a line is none of the reader's characters, so it counts among the others.
    fn from(character: u8) -> Character {
        match character {
            b'0'..=b'9' => Character::Digit(Digit(character - b'0')),
            b'A'..=b'F' => Character::Digit(Digit(character - b'A' + 10)),
            b'a'..=b'f' => Character::Digit(Digit(character - b'a' + 10)),
            b' ' | b'\t' | b'\r' => Character::Blank,
            b'#' => Character::Mark,
            _ => Character::Other,
        }
    }
}
