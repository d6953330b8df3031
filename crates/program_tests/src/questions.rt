//! Published programs, their askers, and what they answer, by the calls of `hooks`.

mod answers;
mod threads;
mod trial;
