//! The words for what is counted.

/// What so many octets are called.
pub(crate) fn octets_name(count: usize) -> &'static str {
    if count == 1 { "octet" } else { "octets" }
}
