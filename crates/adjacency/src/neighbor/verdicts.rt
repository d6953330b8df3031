//! The verdict on a received Database Description (RFC 2328, section 10.6).
ghost use Rattle.std.specs.Prelude.{◌≡◌};
ghost use Rattle.adjacency.specs.Descriptions.{exchange_over, exchanging, is_kept, negotiating};
ghost use Rattle.adjacency.specs.Exchanges.{verdict_of_description, verdict_of};

use super::Neighbor;
use crate::descriptions::{
    ExchangeTests, becomes_master, becomes_slave, changes_options, expected, is_duplicate,
    negotiation, repetition, same_flag,
};
use crate::state::NeighborState;
use crate::verdict::{Mismatch, Verdict};
use packet::Description;
use words::RouterId;

impl Neighbor {
    // Whether the last Database Description sent is kept.
    fn is_kept(&self) -> bool
        ensures { result ≡ is_kept self.now.present.described }
    {
        match self.described.get() {
            None => false,
            Some(_kept) => true,
        }
    }

    fn negotiating(&self, own: RouterId, description: &Description) -> Verdict
        ensures { verdict_of result ≡ negotiating own self.now.present description.now }
    {
        let standing = self.standing();
        let becomes_slave = becomes_slave(own, standing.router, description);
        let becomes_master = becomes_master(own, standing.router, standing.sequence, description);
        negotiation(becomes_slave, becomes_master)
    }

    fn exchanging(&self, description: &Description) -> Verdict
        ensures { verdict_of result ≡ exchanging self.now.present description.now }
    {
        let standing = self.standing();
        let same_roles = same_flag(description.master, standing.is_master);
        let other_options = changes_options(&standing.received, description);
        let next = description.sequence == expected(standing);
        let tests = ExchangeTests {
            same_roles,
            init: description.init,
            other_options,
            expected: next,
        };
        let otherwise = tests.verdict();
        let duplicate = is_duplicate(&standing.received, description);
        repetition(duplicate, standing.is_master, true, otherwise)
    }

    fn exchange_over(&self, description: &Description) -> Verdict
        ensures { verdict_of result ≡ exchange_over self.now.present description.now }
    {
        let standing = self.standing();
        let kept = self.is_kept();
        let duplicate = is_duplicate(&standing.received, description);
        let over = Verdict::Mismatch(Mismatch::ExchangeOver);
        repetition(duplicate, standing.is_master, kept, over)
    }

    /// The verdict on a Database Description from the neighbor whose MTU isn't too large (RFC 2328,
    /// section 10.6).
    pub fn verdict(&self, own: RouterId, description: &Description) -> Verdict
        ensures { verdict_of result ≡ verdict_of_description own self.now.present description.now }
    {
        let standing = self.standing();
        match standing.state {
            NeighborState::Init => Verdict::Discarded,
            NeighborState::ExStart => self.negotiating(own, description),
            NeighborState::Exchange => self.exchanging(description),
            NeighborState::Loading => self.exchange_over(description),
            NeighborState::Full => self.exchange_over(description),
        }
    }
}
