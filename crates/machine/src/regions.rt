//! The regions that loads and stores access, and the one that is recorded for each of a program's.

/// A region of the machine's memory.
#[derive(Clone, Copy)]
pub enum Region {
    /// The 64 bytes of the context, which are read-only.
    Context,
    /// The 512 bytes of the stack.
    Stack,
    /// The 256 counters, which all seats share and programs can only load.
    Counters,
    /// The 64 cells of the seat's own.
    Cells,
}
