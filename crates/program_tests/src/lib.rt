//! Tests of code and of programs by public calls alone, of what no clause says and no row of
//! `trials/` shows: builders, threads, limits of runs; programs that are verified and run, by both
//! interpreters: accepted ones, sums, and an object with each of its bits flipped; the abstract
//! domains, and programs at hooks. They are in a crate above those that they test, since a crate is
//! proved a second time for its own tests.
#![tactic(auto)]

#[cfg(test)]
mod domains;
#[cfg(test)]
mod flipped;
#[cfg(test)]
mod instructions;
#[cfg(test)]
mod objects;
#[cfg(test)]
mod programs;
#[cfg(test)]
mod questions;
#[cfg(test)]
mod safe;
#[cfg(test)]
mod seats;
#[cfg(test)]
mod sums;
#[cfg(test)]
mod tables;
#[cfg(test)]
mod trials;
