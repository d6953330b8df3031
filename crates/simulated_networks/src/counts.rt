//! What a run counts.
use words::u32_at;

/// How much a network did. No count passes its greatest value.
#[derive(Clone, Copy)]
pub struct Counts {
    /// Events that routers took or refused.
    pub events: u64,
    pub refused: u64,
    /// Packets that were sent and their bytes, and how many of them were lost.
    pub packets: u64,
    pub bytes: u64,
    pub lost: u64,
    /// LSAs in the Link State Updates that were sent.
    pub copies: u64,
    /// The most packets that were under way at once.
    pub most_under_way: u64,
}

impl Counts {
    /// Nothing yet.
    pub const ZERO: Counts = Counts {
        events: 0,
        refused: 0,
        packets: 0,
        bytes: 0,
        lost: 0,
        copies: 0,
        most_under_way: 0,
    };

    // Counts a packet that is sent. Returns whether it is a Link State Update.
    pub(crate) fn count_sent(&mut self, bytes: &[u8]) -> bool {
        add(&mut self.packets, 1);
        add(&mut self.bytes, bytes.len() as u64);
        add(&mut self.copies, lsas_in(bytes));
        is_update(bytes)
    }

    pub(crate) fn count_under_way(&mut self, packets: usize) {
        self.most_under_way = self.most_under_way.max(packets as u64);
    }
}

/// Adds `more` to the count, up to its greatest value.
pub fn add(count: &mut u64, more: u64) {
    *count = count.saturating_add(more);
}

/// Whether the packet is a Link State Update (RFC 2328, section A.3.1).
pub fn is_update(bytes: &[u8]) -> bool {
    bytes.len() > 1 && bytes[1] == 4
}

// How many LSAs are in the packet, if it is an Update (RFC 2328, section A.3.5).
fn lsas_in(bytes: &[u8]) -> u64 {
    if is_update(bytes) && bytes.len() >= 28 {
        u64::from(u32_at(bytes, 24))
    } else {
        0
    }
}
