//! Tests of a router's parts by their public functions, of what no clause says and no row of
//! `trials/` shows: printed texts, values by their fields, which graphs are followed, answers that
//! let candidates in. They are in a crate of their own, since a crate is proved once more for its
//! tests.
#![tactic(auto)]

#[cfg(test)]
mod graphs;
#[cfg(test)]
mod looping;
#[cfg(test)]
mod maps;
#[cfg(test)]
mod paged;
#[cfg(test)]
mod tables_of;
#[cfg(test)]
mod written;
