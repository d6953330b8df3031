//! Words that stand for values.

ghost use Rattle.std.specs.Prelude.{◌≡◌, ◌≤◌, ◌<◌, ◌^◌, option_map, codes, IfSome, Some};
ghost use Rattle.clap.specs.Matches.{found_of};
ghost use Rattle.clap.specs.Walk.{first_of, rows_of};
ghost use Rattle.words.specs.Prefixes.{Network};
ghost use Rattle.words.specs.declared.route.ExternalType.{ExternalType};
ghost use Rattle.words.specs.declared.route.RouteKind.{RouteKind};
ghost use Rattle.hooktool_trials.specs.Questions.{HasNumber};
ghost use Rattle.hooktool_trials.specs.Requests.{HasTold};
ghost use Rattle.hooktool_trials.specs.Words.{IsPrefix, IsTold, OrElse, Reads, everything};
ghost use Rattle.hooktool_trials.specs.Words.{kind_word, type_word};

use crate::wrong_words::WrongWord;
use clap::ArgMatches;
use words::{Address, ExternalType, Prefix, RouteKind, read_prefix, read_within};

/// Why nothing is read of words: this one has no meaning, or memory was refused.
#[derive(Clone, Copy)]
pub(crate) enum NotRead {
    Meaningless(WrongWord),
    OutOfMemory,
}

/// The word under a name.
pub(crate) fn word_of<'a>(matches: &ArgMatches<'a>, name: &str) -> Option<&'a str>
    ensures { option_map (λ word. word.now) result
        ≡ first_of name.now (rows_of (found_of matches.now)) }
{
    matches.get_str(name)
}

/// The number under a name, or the usual one if there is none.
pub(crate) fn number_of(
    matches: &ArgMatches<'_>,
    name: &str,
    usual: u64,
    least: u64,
    most: u64,
) -> Option<u64>
    requires { usual ≤ most }
    ensures read { Reads (HasNumber (rows_of (found_of matches.now)) name.now usual least most)
        result }
    ensures within { IfSome result (λ n. n ≤ most) }
{
    match word_of(matches, name) {
        None => Some(usual),
        Some(word) => read_within(word, least, most),
    }
}

/// The number under a name, if it is told. None if the word is no such number.
pub(crate) fn told_number(
    matches: &ArgMatches<'_>,
    name: &str,
    least: u64,
    most: u64,
) -> Option<Option<u32>>
    requires { most < 2 ^ 32 }
    ensures { Reads (HasTold (rows_of (found_of matches.now)) name.now least most) result }
{
    match word_of(matches, name) {
        None => Some(None),
        Some(word) => match read_within(word, least, most) {
            Some(number) => Some(Some(number as u32)),
            None => None,
        },
    }
}

/// The network under `prefix`, or 0.0.0.0/0.
pub(crate) fn prefix_in(matches: &ArgMatches<'_>) -> Option<Prefix>
    ensures { Reads (λ prefix. OrElse (first_of (codes "prefix") (rows_of (found_of matches.now)))
        (prefix ≡ everything)
        (λ word. IsPrefix word prefix)) result }
{
    match word_of(matches, "prefix") {
        None => Prefix::under(Address::new(0), 0),
        Some(word) => read_prefix(word),
    }
}

/// The type under `type`, or type 2.
pub(crate) fn type_in(matches: &ArgMatches<'_>) -> Option<ExternalType>
    ensures { Reads (λ kind. OrElse (first_of (codes "type") (rows_of (found_of matches.now))) (kind
        ≡ ExternalType.Type2)
        (λ word. word ≡ type_word kind)) result }
{
    match word_of(matches, "type") {
        None => Some(ExternalType::Type2),
        Some("1") => Some(ExternalType::Type1),
        Some("2") => Some(ExternalType::Type2),
        Some(_) => None,
    }
}

// The kind of this name.
fn kind_named(name: &str) -> Option<RouteKind>
    ensures { Reads (λ kind. name.now ≡ kind_word kind) result }
{
    match name {
        "intra" => Some(RouteKind::Intra),
        "inter" => Some(RouteKind::Inter),
        "ext1" => Some(RouteKind::External1),
        "ext2" => Some(RouteKind::External2),
        _ => None,
    }
}

/// The kind under `kind`, or intra-area.
pub(crate) fn kind_in(matches: &ArgMatches<'_>) -> Option<RouteKind>
    ensures { Reads (λ kind. OrElse (first_of (codes "kind") (rows_of (found_of matches.now))) (kind
        ≡ RouteKind.Intra)
        (λ word. word ≡ kind_word kind)) result }
{
    match word_of(matches, "kind") {
        None => Some(RouteKind::Intra),
        Some(word) => kind_named(word),
    }
}
