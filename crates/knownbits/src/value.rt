//! Numbers with some known bits.

/// The numbers below 2^64 whose bits under the mask are those of the value.
///
/// A value with a bit outside the mask stands for no number.
#[derive(Clone, Copy)]
pub struct KnownBits {
    /// The bits that are known.
    pub mask: u64,
    /// Their values.
    pub value: u64,
}
