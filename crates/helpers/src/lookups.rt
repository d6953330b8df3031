//! The helpers whose answer depends on the input alone.
ghost use Rattle.std.specs.Prelude.{◌≡◌, ◌≤◌, ◌^◌, slice_index_or};
ghost use Rattle.machine.specs.Given.{given_by};
ghost use Rattle.machine.specs.Helpers.{is_row_of, table_cost};

use machine::{Input, TableRow};

/// The answer for an offset past the end of the packet; no byte has this value.
const PAST_THE_END: u64 = 256;

/// The answer for a prefix that no row has; no row costs this much.
const NO_ROW: u64 = 1 << 32;

/// The byte of the packet at an offset, or 256 past its end.
pub fn packet_byte(input: &Input, offset: u64) -> u64
    ensures byte { result ≡ slice_index_or (given_by input.now).packet offset 256 }
    ensures within { result ≤ 256 }
{
    match input.packet.get(offset as usize) {
        Some(byte) => u64::from(*byte),
        None => PAST_THE_END,
    }
}

fn is_row_of(prefix: u64, length: u64, row: &TableRow) -> bool
    ensures { result ≡ is_row_of prefix length row.now }
{
    u64::from(row.prefix.address().bits()) == prefix && u64::from(row.prefix.length()) == length
}

/// The cost of the first row with exactly this prefix and length, or 2^32 if there is none, as for
/// a length above 32 or a prefix with a host bit set. It goes through the rows one by one, and
/// counts as one instruction however many there are.
pub fn table_cost(input: &Input, prefix: u64, length: u64) -> u64
    ensures cost { result ≡ table_cost (given_by input.now).rows prefix length }
    ensures within { result ≤ 2 ^ 32 }
{
    for row in input.rows {
        if is_row_of(prefix, length, row) {
            return u64::from(row.cost);
        }
    }
    NO_ROW
}
