//! An event in the journal.
use crate::event::Event;
use words::Second;

/// An event and the moment at which it was taken.
#[derive(Drop)]
pub struct JournalEntry {
    pub moment: Second,
    pub event: Event,
}
