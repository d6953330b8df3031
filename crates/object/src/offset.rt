//! Offsets into the regions that a program may point to.
ghost use Rattle.std.specs.Prelude.{◌≡◌, ◌≤◌, ◌↔◌, IfSome, IsSome};

use std::marker::Model;

/// A place in the context or at its end, 0 to 64. Contracts see the number.
#[derive(Clone, Copy, PartialEq, Eq)]
pub struct ContextOffset {
    place: u32,
}

impl Model for ContextOffset {
    ghost use Rattle.std.specs.Prelude.{ℕ, ◌≤◌};

    ghost Value = { ℕ };

    ghost view = { λ offset. offset.place };

    ghost invariant = { λ offset. offset.place ≤ 64 };

    ghost inverse = { λ bytes. record { place = bytes } };
}

impl ContextOffset {
    /// The place this many bytes after the context's first; `None` above 64.
    pub fn new(bytes: u32) -> Option<ContextOffset>
        ensures some { IsSome result ↔ (bytes ≤ 64) }
        ensures value { IfSome result (λ offset. offset ≡ bytes) }
    {
        if bytes <= 64 {
            Some(ContextOffset { place: bytes })
        } else {
            None
        }
    }

    /// Its distance from the first byte, in bytes.
    pub fn bytes(self) -> u32
        ensures value { result ≡ self }
        ensures within { result ≤ 64 }
    {
        self.place
    }
}

/// A place in the stack or at its end, 0 to 512. Contracts see the number.
#[derive(Clone, Copy, PartialEq, Eq)]
pub struct StackOffset {
    bytes: u32,
}

impl Model for StackOffset {
    ghost use Rattle.std.specs.Prelude.{ℕ, ◌≤◌};

    ghost Value = { ℕ };

    ghost view = { λ offset. offset.bytes };

    ghost invariant = { λ offset. offset.bytes ≤ 512 };

    ghost inverse = { λ bytes. record { bytes = bytes } };
}

impl StackOffset {
    /// The place this many bytes after the stack's first; `None` above 512.
    pub fn new(bytes: u32) -> Option<StackOffset>
        ensures some { IsSome result ↔ (bytes ≤ 512) }
        ensures value { IfSome result (λ offset. offset ≡ bytes) }
    {
        if bytes <= 512 {
            Some(StackOffset { bytes })
        } else {
            None
        }
    }

    /// Its distance from the first byte, in bytes.
    pub fn bytes(self) -> u32
        ensures value { result ≡ self }
        ensures within { result ≤ 512 }
    {
        self.bytes
    }
}
