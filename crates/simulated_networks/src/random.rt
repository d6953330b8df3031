//! Numbers from a seed.
ghost use Rattle.std.specs.Prelude.{◌≡◌, ◌<◌, ◌%◌, ◌↔◌, IsTrue, false};
ghost use Rattle.simulated_networks.specs.Numbers.{behind, numbers_of, word_of};

use rand_core::utils::NextWord;
use rand_pcg::Pcg32;
use std::marker::Model;

/// How many of 10,000 packets are lost, come 1 to 3 seconds later, or come twice.
#[derive(Clone, Copy)]
pub struct Faults {
    pub loss: u32,
    pub late: u32,
    pub twice: u32,
}

impl Faults {
    /// Each packet comes, once and at once.
    pub const NONE: Faults = Faults {
        loss: 0,
        late: 0,
        twice: 0,
    };
}

/// The numbers of a seed: those of the generator PCG XSH RR (O'Neill, "PCG: a family of simple fast
/// space-efficient statistically good algorithms for random number generation"), the same on any
/// machine. Clauses see the generator.
#[derive(Drop)]
pub struct Random {
    generator: Pcg32,
}

impl Model for Random {
    ghost use Rattle.rand_pcg.specs.Lcg.{Lcg};

    ghost Value = { Lcg };

    ghost view = { λ a. a.generator };
}

impl Random {
    /// Those of this seed, from the first one on.
    pub fn new(seed: u64) -> Random
        ensures { result ≡ numbers_of seed }
    {
        Random {
            generator: Pcg32::new(seed, 54),
        }
    }

    /// The next number below the limit; 0 if the limit is 0.
    pub fn below(&mut self, limit: u32) -> u32
        ensures value { 0 < limit → result ≡ word_of self.old % limit }
        ensures none { limit ≡ 0 → result ≡ 0 }
        ensures within { 0 < limit → result < limit }
        ensures next { self.new ≡ behind self.old }
    {
        let word: u32 = self.generator.next_word();
        if limit == 0 { 0 } else { word % limit }
    }

    /// The next place of `count`; 0 if there is none.
    pub fn place(&mut self, count: usize) -> usize
        ensures value { 0 < count → result ≡ word_of self.old % count }
        ensures none { count ≡ 0 → result ≡ 0 }
        ensures within { 0 < count → result < count }
        ensures next { self.new ≡ behind self.old }
    {
        let word: u32 = self.generator.next_word();
        if count == 0 { 0 } else { word as usize % count }
    }

    /// Is true `many` times out of 10,000. If that is 0, no number of the seed is used up.
    pub fn happens(&mut self, many: u32) -> bool
        ensures sometimes { 0 < many → (IsTrue result ↔ (word_of self.old % 10000 < many)) }
        ensures next { 0 < many → self.new ≡ behind self.old }
        ensures never { many ≡ 0 → (result ≡ false) × (self.new ≡ self.old) }
    {
        many > 0 && self.below(10_000) < many
    }
}
