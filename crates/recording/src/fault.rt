//! What is wrong with a line of a recording.
use thiserror::Error;

/// Why a line is not a line of octets. Columns count from 1.
#[derive(Clone, Copy, PartialEq, Eq, Debug, Error)]
pub enum TextFault {
    /// The character in this column has no place in a line of octets.
    #[error("column {0} is no hexadecimal digit")]
    NotHexadecimal(u64),
    /// The digit in this column has no second digit right behind it.
    #[error("the digit in column {0} has no second digit")]
    HalfOctet(u64),
}
