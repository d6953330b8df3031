//! What the machine's registers and stack hold.
use isa::Map;

/// A region and an offset in bytes. The offset may be out of bounds: only loads and stores are
/// checked.
#[derive(Clone, Copy)]
pub enum Pointer {
    /// Into the 64 bytes of the context, which are read-only.
    Context(u64),
    /// Into the 512 bytes of the stack.
    Stack(u64),
    /// Into one of the two maps.
    Map(Map, u64),
}

/// What a register holds.
#[derive(Clone, Copy)]
pub enum Content {
    /// Empty: not written yet, or cleared by a call. It is a content as any other, known to be
    /// none: the verifier's `Kind::Unknown` is another thing, that nothing is known.
    Nothing,
    /// A number of 64 bits.
    Number(u64),
    /// A pointer.
    Address(Pointer),
}

/// What a byte of the stack holds.
#[derive(Clone, Copy)]
pub enum StackByte {
    /// Empty: not written yet.
    Nothing,
    /// A byte of a number.
    Byte(u8),
    /// Piece k, from 0 to 7, of a pointer that is stored in eight bytes, the lowest first.
    Piece(Pointer, u8),
}

/// The state of the machine between two instructions.
#[derive(Clone, Copy)]
pub struct State {
    /// The slot of the next instruction.
    pub slot: u64,
    /// r0 to r10.
    pub registers: [Content; 11],
    /// The stack, from the lowest byte up.
    pub stack: [StackByte; 512],
}
