//! Tests of the router's book and of its workers, by their public calls. They stand above, since a
//! crate is proved once more for its tests.
//!
//! A test is a list of scenes, each played at a router with three ports, by steps or otherwise. Two
//! and three routers on their links are in trials/sessions.rows.
#![tactic(auto)]

#[cfg(test)]
mod journals;
#[cfg(test)]
mod operated;
#[cfg(test)]
mod samples;
#[cfg(test)]
mod scenes;
#[cfg(test)]
mod serving;
#[cfg(test)]
mod side_by_side;
#[cfg(test)]
mod stage;
#[cfg(test)]
mod steps;
#[cfg(test)]
mod tableless;
#[cfg(test)]
mod watching;
