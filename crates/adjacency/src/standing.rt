//! The state of a neighbor except its lists.
ghost use Rattle.std.specs.Prelude.{◌≡◌};
ghost use Rattle.adjacency.specs.Views.{fresh_standing, started_standing};

use crate::state::NeighborState;
use std::marker::Model;
use words::{RouterId, Second};

/// What identifies a duplicate Database Description: its flags, Options and sequence number (RFC
/// 2328, section 10.6).
#[derive(Clone, Copy)]
pub struct ReceivedDescription {
    pub options: u8,
    pub init: bool,
    pub more: bool,
    pub master: bool,
    pub sequence: u32,
}

impl Model for ReceivedDescription {
    ghost use Rattle.adjacency.specs.Neighbors.{ReceivedDescription as Known};

    ghost Value = { Known };

    ghost view = { λ a. record {
      options = a.options;
      init = a.init;
      more = a.more;
      master = a.master;
      sequence = a.sequence;
    } };

    ghost inverse = { λ m. record {
      options = m.options;
      init = m.init;
      more = m.more;
      master = m.master;
      sequence = m.sequence;
    } };
}

/// A neighbor's Router ID, state, sequence numbers and timers.
#[derive(Clone, Copy)]
pub struct Standing {
    pub router: RouterId,
    pub state: NeighborState,
    /// Whether this router is the master of the exchange.
    pub is_master: bool,
    /// The DD sequence number.
    pub sequence: u32,
    /// The DD sequence number with which the last attempt since the neighbor was Down began.
    pub dd_sequence_start: Option<u32>,
    /// The last Database Description received.
    pub received: Option<ReceivedDescription>,
    /// The moment at which the exchange was completed.
    pub exchanged: Option<Second>,
    /// The start of the inactivity timer.
    pub last_heard: Second,
    /// When the Database Description was last sent: the start of its RxmtInterval.
    pub described_at: Second,
    /// When the Link State Request was last sent: the start of its RxmtInterval.
    pub requested_at: Second,
    /// The start of RxmtInterval for the retransmission list: one for all of its LSAs.
    pub retransmitted_at: Second,
}

impl Standing {
    /// A copy: a `Copy` struct with a field that has a model counts as moved when it is used.
    pub fn copy(&self) -> Standing
        ensures { result ≡ self.now }
    {
        *self
    }

    /// A neighbor in Init.
    pub fn fresh(router: RouterId, dd_sequence_start: Option<u32>, last_heard: Second) -> Standing
        ensures { result ≡ fresh_standing router dd_sequence_start last_heard }
    {
        Standing {
            router,
            state: NeighborState::Init,
            is_master: false,
            sequence: 0,
            dd_sequence_start,
            received: None,
            exchanged: None,
            last_heard,
            described_at: Second::new(0),
            requested_at: Second::new(0),
            retransmitted_at: Second::new(0),
        }
    }

    /// A neighbor in ExStart, with the sequence number of a new attempt.
    pub fn started(
        moment: Second,
        router: RouterId,
        dd_sequence: u32,
        last_heard: Second,
    ) -> Standing
        ensures { result ≡ started_standing moment router dd_sequence last_heard }
    {
        Standing {
            router,
            state: NeighborState::ExStart,
            is_master: true,
            sequence: dd_sequence,
            dd_sequence_start: Some(dd_sequence),
            received: None,
            exchanged: None,
            last_heard,
            described_at: moment,
            requested_at: Second::new(0),
            retransmitted_at: Second::new(0),
        }
    }
}
