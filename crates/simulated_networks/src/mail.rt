//! What is under way in a play, and has come.
use crate::search::HistorySetting;
use flood::{Event, Out};

// What is under way to the router at a place, or has come.
#[derive(Drop)]
pub struct Sent {
    pub place: usize,
    pub event: Event,
}

/// All that was sent. If memory is refused for something, that is left out.
#[derive(Drop)]
pub struct Mail<'a> {
    pub stage: HistorySetting<'a>,
    pub packets: Vec<Sent>,
    /// What stands before this place has come, or was lost.
    pub at: usize,
    /// Memory was refused: something isn't under way that should be.
    pub lacks_memory: bool,
}

impl<'a> Mail<'a> {
    /// Nothing yet.
    pub fn new(stage: HistorySetting<'a>) -> Mail<'a> {
        Mail {
            stage,
            packets: Vec::new(stage.alloc),
            at: 0,
            lacks_memory: false,
        }
    }

    fn sends(&mut self, place: usize, out: Out) {
        if let Some(end) = self.stage.topology.end(place, out.interface) {
            let sent = Sent {
                place: end.place,
                event: Event::Packet(u16::from(end.interface), out.bytes),
            };
            if self.packets.push(sent).is_err() {
                self.lacks_memory = true;
            }
        }
    }

    /// The router at the place sends all of this.
    pub fn send_all(&mut self, place: usize, outs: Vec<Out>) {
        for out in outs {
            self.sends(place, out);
        }
    }

    /// The next packet has come, or was lost.
    pub fn goes_on(&mut self) {
        self.at = self.packets.len().min(self.at.saturating_add(1));
    }

    /// Whether all has come.
    pub fn is_quiet(&self) -> bool {
        self.at >= self.packets.len()
    }
}
