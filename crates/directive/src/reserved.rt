//! Codes that are reserved, and bits that are spare.
ghost use Rattle.std.specs.Prelude.{◌≡◌, if◌then◌else◌, Ok, Err, nat_eq};
ghost use Rattle.directive.specs.declared.fault.SpduFault.TheVariants.{Reserved};

use super::fault::SpduFault;
use thiserror::Error;

/// A code that stands for nothing.
#[derive(Clone, Copy, PartialEq, Eq, Debug, Error)]
#[error("the code is reserved")]
pub struct ReservedCode;

/// What spare bits answer in the field that starts at this octet of its directive.
pub(crate) fn spare(bits: u128, octet: usize) -> Result<(), SpduFault>
    ensures { result ≡ (if nat_eq bits 0 then Ok tt else Err (Reserved octet)) }
{
    if bits == 0 {
        Ok(())
    } else {
        Err(SpduFault::Reserved(octet))
    }
}
