//! What a program is run on.
use words::TableRow;

/// What a program is run on. It borrows the packet and the rows, so that calling a program
/// allocates nothing.
///
/// It belongs to a hook if the first four bytes of the context, in little-endian order, are the
/// hook's number.
#[derive(Clone, Copy)]
pub struct Input<'a> {
    /// The bytes that r1 points to at the start; programs can only read them.
    pub context: [u8; 64],
    /// The bytes that `PacketByte` reads.
    pub packet: &'a [u8],
    /// The routes that `TableCost` searches, in order.
    pub rows: &'a [TableRow],
}
