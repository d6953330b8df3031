//! The destination and the kinds of a question.

ghost use Rattle.clap.specs.Matches.{found_of};
ghost use Rattle.clap.specs.Walk.{rows_of};
ghost use Rattle.hooktool_trials.specs.Questions.{HasPlaces};
ghost use Rattle.hooktool_trials.specs.Words.{ReadsOrTells};

use crate::values::{kind_in, prefix_in, type_in};
use crate::wrong_words::WrongWord;
use clap::ArgMatches;
use words::{ExternalType, Prefix, RouteKind};

/// The destination of a question, the type of the external one, and the route's kind.
#[derive(Clone, Copy)]
pub(crate) struct Places {
    pub prefix: Prefix,
    pub external: ExternalType,
    pub kind: RouteKind,
}

/// What the options give of them, or which one has no meaning.
pub(crate) fn places_of(matches: &ArgMatches<'_>) -> Result<Places, WrongWord>
    ensures { ReadsOrTells (HasPlaces (rows_of (found_of matches.now))) result }
{
    let Some(prefix) = prefix_in(matches) else {
        return Err(WrongWord::Prefix);
    };
    let Some(external) = type_in(matches) else {
        return Err(WrongWord::Type);
    };
    let Some(kind) = kind_in(matches) else {
        return Err(WrongWord::Kind);
    };
    Ok(Places {
        prefix,
        external,
        kind,
    })
}
