//! The answers of `veto` on the routes that were offered.
ghost use Rattle.std.specs.Prelude.{◌≡◌, [], IfOk, map};
ghost use Rattle.hooks.specs.Vacant.{let_in_answer};
ghost use Rattle.hooks.specs.VetoAnswers.{words_of};

use crate::answer::VetoAnswer;
use keyed_map::{Pages, RouteAnswers};
use std::alloc::{AllocError, Global};
use std::marker::Model;
use words::{Route, Second, Sequence};

// How they are kept: one by one, or, where each route is let in at one moment, the routes alone.
#[derive(Drop)]
enum Kept {
    Each(Sequence<VetoAnswer>),
    AllIn(Second, Pages<Route>),
}

/// Answers of `veto`, in the order of the routes. Where each route is let in, without a program,
/// copies share the routes.
#[derive(Drop)]
pub struct VetoAnswers {
    kept: Kept,
}

impl Model for VetoAnswers {
    ghost use Rattle.std.specs.Prelude.{List};
    ghost use Rattle.hooks.specs.Questions.{RouteAnswer};
    ghost use Rattle.hooks.specs.VetoAnswers.{vetoes_of};

    ghost Value = { List RouteAnswer };

    ghost view = { λ a. vetoes_of a.kept };
}

fn words_of(alloc: Global, answers: &[VetoAnswer]) -> Result<Vec<(Route, u64)>, AllocError>
    ensures { IfOk result (λ words. words.items ≡ words_of answers.now) }
{
    answers
        .iter()
        .map(|answer| (answer.route(), answer.word()))
        .collect(alloc)
}

impl VetoAnswers {
    /// No answers.
    pub fn none(alloc: Global) -> Self
        ensures { result ≡ [] }
    {
        VetoAnswers::each(Vec::new(alloc))
    }

    /// These answers.
    pub fn each(answers: Vec<VetoAnswer>) -> Self
        ensures { result ≡ answers.items }
    {
        VetoAnswers {
            kept: Kept::Each(Sequence::from_vec(answers)),
        }
    }

    // Each of these routes is let in.
    pub(crate) fn all_in(moment: Second, routes: Pages<Route>) -> Self
        ensures { result ≡ map (let_in_answer moment) routes }
    {
        VetoAnswers {
            kept: Kept::AllIn(moment, routes),
        }
    }

    /// The allocator.
    pub fn allocator(&self) -> Global {
        match &self.kept {
            Kept::Each(answers) => answers.allocator(),
            Kept::AllIn(_, routes) => routes.allocator(),
        }
    }

    /// The routes, each with the word of its answer.
    ///
    /// # Errors
    /// `AllocError` if an allocation is refused.
    pub fn words(&self, alloc: Global) -> Result<RouteAnswers, AllocError>
        ensures { IfOk result (λ words. words ≡ words_of self.now) }
    {
        match &self.kept {
            Kept::Each(answers) => {
                let words = words_of(alloc, answers.as_slice())?;
                Ok(RouteAnswers::each(Sequence::from_vec(words)))
            }
            Kept::AllIn(_, routes) => Ok(RouteAnswers::all_in(routes.copy()?)),
        }
    }

    /// The same answers.
    ///
    /// # Errors
    /// `AllocError` if an allocation is refused.
    pub fn copy(&self) -> Result<Self, AllocError>
        ensures { IfOk result (λ copy. copy ≡ self.now) }
    {
        match &self.kept {
            Kept::Each(answers) => Ok(VetoAnswers {
                kept: Kept::Each(answers.copy()?),
            }),
            Kept::AllIn(moment, routes) => Ok(VetoAnswers::all_in(*moment, routes.copy()?)),
        }
    }
}
