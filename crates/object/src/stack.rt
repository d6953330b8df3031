//! Sets of stack bytes.
ghost use Rattle.std.specs.Prelude.{◌≡◌, ◌≤◌, ◌<◌, ◌∷◌, [], ◌++◌, length, nat_eq, OnOk};
ghost use Rattle.std.specs.Int.{bit_at};
ghost use Rattle.object.specs.Sets.{IsStackBytes, has_byte, no_bytes, with_range};
ghost use Rattle.object.specs.Packing.{bit, packed_bits};

use std::alloc::AllocError;
use std::marker::Model;

/// The size of the stack, in bytes.
pub const STACK_BYTES: usize = 512;

/// A set of the stack's 512 bytes. Contracts see 512 truth values, that of byte 0 first.
#[derive(Clone, Copy, PartialEq, Eq)]
pub struct StackBytes {
    bytes: [bool; 512],
}

impl Model for StackBytes {
    ghost use Rattle.std.specs.Prelude.{List, Bool};
    ghost use Rattle.object.specs.Sets.{IsStackBytes};

    ghost Value = { List Bool };

    ghost view = { λ s. s.bytes };

    ghost invariant = { λ s. IsStackBytes s.bytes };

    ghost inverse = { λ bytes. record { bytes = bytes } };
}

/// Whether a bit of the byte is 1.
fn has_bit(byte: u8, bit: usize) -> bool
    requires { bit < 8 }
    ensures { result ≡ nat_eq (bit_at byte bit) 1 }
{
    byte >> bit & 1 == 1
}

/// A truth value as a bit.
fn bit(is_set: bool) -> u8
    ensures value { result ≡ bit is_set }
    ensures within { result ≤ 1 }
{
    if is_set { 1 } else { 0 }
}

/// The byte with these eight bits, bit 0 first.
fn packed_byte(bits: &[bool]) -> u8
    requires { length bits.now ≡ 8 }
    ensures { result ∷ [] ≡ packed_bits bits.now }
{
    bit(bits[0])
        + 2 * bit(bits[1])
        + 4 * bit(bits[2])
        + 8 * bit(bits[3])
        + 16 * bit(bits[4])
        + 32 * bit(bits[5])
        + 64 * bit(bits[6])
        + 128 * bit(bits[7])
}

impl StackBytes {
    /// The set in 64 bytes: bit i of byte j is stack byte 8 * j + i.
    pub(crate) fn unpack(bytes: &[u8]) -> StackBytes
        requires { length bytes.now ≡ 64 }
        ensures packed { packed_bits result ≡ bytes.now }
        ensures are { IsStackBytes result }
    {
        let mut set = [false; 512];
        for byte in 0..512 {
            set[byte] = has_bit(bytes[byte / 8], byte % 8);
        }
        StackBytes { bytes: set }
    }

    /// Appends the 64 bytes of the set.
    pub(crate) fn pack(&self, out: &mut Vec<u8>) -> Result<(), AllocError>
        ensures { OnOk result (out.new.items ≡ out.old.items ++ packed_bits self.now) }
    {
        for byte in 0..64 {
            out.push(packed_byte(&self.bytes[8 * byte..8 * byte + 8]))?;
        }
        Ok(())
    }

    /// The empty set.
    pub fn new() -> StackBytes
        ensures { result ≡ no_bytes }
    {
        StackBytes {
            bytes: [false; 512],
        }
    }

    /// Whether the set contains this byte of the stack.
    pub fn contains(&self, place: usize) -> bool
        requires { place < 512 }
        ensures value { result ≡ has_byte self.now place }
        ensures are { IsStackBytes self.now }
    {
        self.bytes[place]
    }

    /// Adds the bytes from `start` up to but excluding `end`.
    pub fn insert_range(&mut self, start: usize, end: usize)
        requires ordered { start ≤ end }
        requires within { end ≤ 512 }
        ensures { self.new ≡ with_range start end self.old }
    {
        for byte in start..end {
            self.bytes[byte] = true;
        }
    }
}
