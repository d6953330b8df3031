//! Answers on routes.
ghost use Rattle.std.specs.Prelude.{◌≡◌, IfOk};
ghost use Rattle.keyed_map.specs.Answers.{AreKeptAs, all_in};

use crate::pages::Pages;
use std::alloc::{AllocError, Global};
use std::marker::Model;
use words::{Route, Sequence};

// How the answers are kept: one by one, or, where each is 0, the routes alone.
#[derive(Drop)]
enum Kept {
    Each(Sequence<(Route, u64)>),
    AllIn(Pages<Route>),
}

/// Answers on routes, as they are kept.
#[derive(Clone, Copy)]
pub enum KeptAnswers<'a> {
    /// One by one.
    Each(&'a [(Route, u64)]),
    /// The word 0 for each of these routes.
    AllIn(&'a Pages<Route>),
}

/// Routes, each with the word of its answer. Where each word is 0, copies share the routes.
#[derive(Drop)]
pub struct RouteAnswers {
    kept: Kept,
}

impl Model for RouteAnswers {
    ghost use Rattle.std.specs.Prelude.{List, ℕ};
    ghost use Rattle.words.specs.declared.route.Route.{Route as RouteValue};
    ghost use Rattle.keyed_map.specs.Answers.{answers_of};

    ghost Value = { List (RouteValue × ℕ) };

    ghost view = { λ a. answers_of a.kept };
}

fn all_in(alloc: Global, routes: &Pages<Route>) -> Result<Vec<(Route, u64)>, AllocError>
    ensures { IfOk result (λ answers. answers.items ≡ all_in routes.now) }
{
    let routes = routes.to_vec()?;
    routes.iter().map(|route| (*route, 0)).collect(alloc)
}

impl RouteAnswers {
    /// These answers.
    pub fn each(answers: Sequence<(Route, u64)>) -> Self
        ensures { result ≡ answers }
    {
        RouteAnswers {
            kept: Kept::Each(answers),
        }
    }

    /// The word 0 for each of these routes.
    pub fn all_in(routes: Pages<Route>) -> Self
        ensures { result ≡ all_in routes }
    {
        RouteAnswers {
            kept: Kept::AllIn(routes),
        }
    }

    /// The answers as they are kept.
    pub fn kept(&self) -> KeptAnswers<'_>
        ensures { AreKeptAs result self.now }
    {
        match &self.kept {
            Kept::Each(answers) => KeptAnswers::Each(answers.as_slice()),
            Kept::AllIn(routes) => KeptAnswers::AllIn(routes),
        }
    }

    /// The answers one by one.
    ///
    /// # Errors
    /// `AllocError` if an allocation is refused.
    pub fn to_vec(&self, alloc: Global) -> Result<Vec<(Route, u64)>, AllocError>
        ensures { IfOk result (λ answers. answers.items ≡ self.now) }
    {
        match &self.kept {
            Kept::Each(answers) => Vec::from_slice(alloc, answers.as_slice()),
            Kept::AllIn(routes) => all_in(alloc, routes),
        }
    }

    /// The same answers.
    ///
    /// # Errors
    /// `AllocError` if an allocation is refused.
    pub fn copy(&self) -> Result<Self, AllocError>
        ensures { IfOk result (λ copy. copy ≡ self.now) }
    {
        match &self.kept {
            Kept::Each(answers) => Ok(RouteAnswers::each(answers.copy()?)),
            Kept::AllIn(routes) => Ok(RouteAnswers::all_in(routes.copy()?)),
        }
    }
}
