//! The words of a command line, read.

ghost use Rattle.std.specs.Prelude.{◌≡◌, ◌⊎◌, map, MatchResult};
ghost use Rattle.std.specs.IoError.{error_kind};
ghost use Rattle.clap.specs.Values.{kind_of};
ghost use Rattle.hooktool_trials.specs.Requests.{Asks, IsRefusal, IsTaken};

use crate::arguments;
use crate::requests::{self, HooktoolRequest};
use clap::error::ErrorKind;
use clap::{ArgMatches, Error};
use std::alloc::{AllocError, Global};
use std::io::{self, ErrorKind as IoKind};

/// The text for words that can't be read: memory was refused, or a word isn't UTF-8.
pub fn unreadable_words(alloc: Global, error: &io::Error) -> Error
    ensures memory { error_kind error.now ≡ IoKind.OutOfMemory
        → kind_of result ≡ ErrorKind.OutOfMemory }
    ensures value { (kind_of result ≡ ErrorKind.OutOfMemory)
        ⊎ (kind_of result ≡ ErrorKind.InvalidValue) }
{
    match error.kind() {
        IoKind::OutOfMemory => Error::from(AllocError),
        _ => arguments::error(alloc, ErrorKind::InvalidValue, "a word isn't UTF-8"),
    }
}

// What the command line finds in the words.
fn taken<'a>(alloc: Global, words: &'a [&'a str]) -> Result<ArgMatches<'a>, Error>
    ensures { MatchResult result (IsTaken (map (λ w. w.now) words.entry.now))
        (IsRefusal (map (λ w. w.now) words.entry.now)) }
{
    match arguments::whole(alloc) {
        Ok(line) => line.try_get_matches_from(words),
        Err(error) => Err(Error::from(error)),
    }
}

/// Reads the words of a command line, of which the first is the program's name.
///
/// `Ok` is exactly what the words ask for.
///
/// # Errors
/// The text for the user: a mistake in the words, if they ask for nothing, or the help that they
/// ask for. Its kind is `OutOfMemory` if an allocation was refused.
pub fn parse<'a>(alloc: Global, words: &'a [&'a str]) -> Result<HooktoolRequest<'a>, Error>
    ensures { MatchResult result (Asks (map (λ w. w.now) words.entry.now))
        (IsRefusal (map (λ w. w.now) words.entry.now)) }
{
    match taken(alloc, words) {
        Ok(matches) => requests::request_of(alloc, &matches),
        Err(error) => Err(error),
    }
}
