//! The symbol rate of a link: a half float times 2^16.
ghost use Rattle.std.specs.Prelude.{◌≡◌};
ghost use Rattle.directive.specs.Rate.{rate_allowed, rate_answer};

/// Whether a field holds a rate from 1,000 to 4,096,000 symbols per second.
pub fn rate_is_allowed(field: u16) -> bool
    ensures { result ≡ rate_allowed field }
{
    (0x23d0..=0x53d0).contains(&field)
}

/// Twice the symbols per second that a field stands for, since some rates end in a half. None out of range.
pub fn doubled_rate(field: u16) -> Option<u32>
    ensures { result ≡ rate_answer field }
{
    if !rate_is_allowed(field) {
        return None;
    }
    let exponent = (field >> 10) & 31;
    let mantissa = field & 0x3ff;
    Some((1024 + u32::from(mantissa)) << (exponent - 8))
}
