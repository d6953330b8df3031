//! Answers with their questions. Only this crate makes them.
ghost use Rattle.std.specs.Prelude.{◌≡◌, ◌%◌, ◌^◌};
ghost use Rattle.hooks.specs.Questions.{IsTag, IsPrice, IsVeto};

use std::marker::Model;
use words::{External, Route, Second};

/// The answer of `tag` on an external destination at a moment: the word of a run of an accepted
/// program, or the configured tag.
#[derive(Clone, Copy)]
pub struct TagAnswer {
    external: External,
    moment: Second,
    word: u64,
}

impl Model for TagAnswer {
    ghost use Rattle.hooks.specs.Questions.{ExternalAnswer, IsTag};

    ghost Value = { ExternalAnswer };

    ghost view = { λ a. record { external = a.external; moment = a.moment; word = a.word } };

    ghost invariant = { λ a. ∥ IsTag (record {
      external = a.external;
      moment = a.moment;
      word =
          a.word;
    }) ∥₁ };

    ghost inverse = { λ a. record { external = a.external; moment = a.moment; word = a.word } };
}

impl TagAnswer {
    pub(crate) fn new(external: External, moment: Second, word: u64) -> TagAnswer
        requires { IsTag (record { external = external; moment = moment; word = word }) }
        ensures { result ≡ record { external = external; moment = moment; word = word } }
    {
        TagAnswer {
            external,
            moment,
            word,
        }
    }

    /// The destination that was asked about.
    pub fn external(&self) -> External
        ensures { result ≡ self.now.external }
    {
        self.external
    }

    /// The moment at which it was asked.
    pub fn moment(&self) -> Second
        ensures { result ≡ self.now.moment }
    {
        self.moment
    }

    /// The answered word, of which the low 32 bits are the tag.
    pub fn word(&self) -> u64
        ensures value { result ≡ self.now.word }
        ensures answers { ∥ IsTag self.now ∥₁ }
    {
        self.word
    }

    /// The tag: the low 32 bits of the word.
    pub fn tag(&self) -> u32
        ensures { result ≡ self.now.word % 2 ^ 32 }
    {
        (self.word % 4294967296) as u32
    }
}

/// The answer of `price` on an external destination at a moment: the word of a run of an accepted
/// program, or the configured metric.
#[derive(Clone, Copy)]
pub struct PriceAnswer {
    external: External,
    moment: Second,
    word: u64,
}

impl Model for PriceAnswer {
    ghost use Rattle.hooks.specs.Questions.{ExternalAnswer, IsPrice};

    ghost Value = { ExternalAnswer };

    ghost view = { λ a. record { external = a.external; moment = a.moment; word = a.word } };

    ghost invariant = { λ a. ∥ IsPrice (record {
      external = a.external;
      moment = a.moment;
      word =
          a.word;
    }) ∥₁ };

    ghost inverse = { λ a. record { external = a.external; moment = a.moment; word = a.word } };
}

impl PriceAnswer {
    pub(crate) fn new(external: External, moment: Second, word: u64) -> PriceAnswer
        requires { IsPrice (record { external = external; moment = moment; word = word }) }
        ensures { result ≡ record { external = external; moment = moment; word = word } }
    {
        PriceAnswer {
            external,
            moment,
            word,
        }
    }

    /// The destination that was asked about.
    pub fn external(&self) -> External
        ensures { result ≡ self.now.external }
    {
        self.external
    }

    /// The moment at which it was asked.
    pub fn moment(&self) -> Second
        ensures { result ≡ self.now.moment }
    {
        self.moment
    }

    /// The answered word: the metric, if it is below LSInfinity, 0xffffff (RFC 2328, appendix B).
    /// With any other the destination isn't announced.
    pub fn word(&self) -> u64
        ensures value { result ≡ self.now.word }
        ensures answers { ∥ IsPrice self.now ∥₁ }
    {
        self.word
    }
}

/// The answer of `veto` on a route at a moment: the word of a run of an accepted program, or 0.
#[derive(Clone, Copy)]
pub struct VetoAnswer {
    route: Route,
    moment: Second,
    word: u64,
}

impl Model for VetoAnswer {
    ghost use Rattle.hooks.specs.Questions.{RouteAnswer, IsVeto};

    ghost Value = { RouteAnswer };

    ghost view = { λ a. record { route = a.route; moment = a.moment; word = a.word } };

    ghost invariant = { λ a. ∥ IsVeto (record { route = a.route; moment = a.moment; word = a.word })
        ∥₁ };

    ghost inverse = { λ a. record { route = a.route; moment = a.moment; word = a.word } };
}

impl VetoAnswer {
    pub(crate) fn new(route: Route, moment: Second, word: u64) -> VetoAnswer
        requires { IsVeto (record { route = route; moment = moment; word = word }) }
        ensures { result ≡ record { route = route; moment = moment; word = word } }
    {
        VetoAnswer {
            route,
            moment,
            word,
        }
    }

    /// The route that was asked about.
    pub fn route(&self) -> Route
        ensures { result ≡ self.now.route }
    {
        self.route
    }

    /// The moment at which it was asked.
    pub fn moment(&self) -> Second
        ensures { result ≡ self.now.moment }
    {
        self.moment
    }

    /// The answered word: 0 lets the route into the table, any other keeps it out.
    pub fn word(&self) -> u64
        ensures value { result ≡ self.now.word }
        ensures answers { ∥ IsVeto self.now ∥₁ }
    {
        self.word
    }
}
