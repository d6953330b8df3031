//! What a turn is for.
use words::{External, Prefix, Sequence};

/// What a turn gives to the router: what came in, what an operator asks for, or the time.
#[derive(Drop)]
pub enum Work {
    /// These bytes came in at the interface of this number.
    Datagram(u16, Sequence<u8>),
    /// Time has passed.
    Tick,
    /// A destination is to be announced, with the tag and the metric that the programs answer.
    Add(External),
    /// A destination is to be announced no longer.
    Withdraw(Prefix),
    /// The neighbor at the interface of this number goes Down. No line of the console asks for it.
    Down(u16),
    /// The programs are to be asked of each candidate whether it is kept out of the table.
    Refresh,
}
