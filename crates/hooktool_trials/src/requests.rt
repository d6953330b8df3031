//! What a command and its words ask for.

ghost use Rattle.std.specs.Prelude.{◌≡◌, ◌+◌, ◌≤◌, ◌⊎◌, codes, IfOk, IfErr, Some};
ghost use Rattle.clap.specs.Matches.{found_of};
ghost use Rattle.clap.specs.Simple.{subcommand_rows_of};
ghost use Rattle.clap.specs.Values.{kind_of};
ghost use Rattle.clap.specs.Walk.{rows_of};
ghost use Rattle.clap.specs.declared.error.kind.ErrorKind.TheVariants as kinds;
ghost use Rattle.hooktool_trials.specs.Lists.{HasLists};
ghost use Rattle.hooktool_trials.specs.Questions.{HasAsked, HasQuestion, asked_of, hops_from};
ghost use Rattle.hooktool_trials.specs.Requests.{HasFuel, HasHook, IsHook, IsMade, IsWrong};
ghost use Rattle.hooktool_trials.specs.Requests.{IsWrongWord, MadeBy, Makes, MakesPlain};
ghost use Rattle.hooktool_trials.specs.Words.{Reads, ReadsOrLacks, ReadsOrTells};

use crate::arguments::error;
use crate::asked::Asked;
use crate::numbers::{Numbers, numbers_of};
use crate::packets::packet_in;
use crate::places::{Places, places_of};
use crate::rows::rows_in;
use crate::settings::{Setting, settings_in};
use crate::values::{NotRead, number_of, told_number, word_of};
use crate::wrong_words::{WrongWord, text_of};
use clap::error::ErrorKind;
use clap::{ArgMatches, Error};
use isa::Hook;
use std::alloc::{AllocError, Global};
use words::{Hops, Second, TableRow};

/// The packet of a question: its bytes, or the path of the file that has them.
#[derive(Drop)]
pub enum PacketSource<'a> {
    Bytes(Vec<u8>),
    File(&'a str),
}

/// What a program is to be run on, what is added to counters and stored in cells before, and how
/// many times in a row it runs, 1 to 1,000.
#[derive(Drop)]
pub struct Question<'a> {
    pub asked: Asked,
    pub packet: PacketSource<'a>,
    pub rows: Vec<TableRow>,
    pub counters: Vec<Setting>,
    pub cells: Vec<Setting>,
    pub times: u32,
}

/// The lists of a question: rows of the routing table, and settings of counters and cells.
#[derive(Drop)]
struct Lists {
    pub rows: Vec<TableRow>,
    pub counters: Vec<Setting>,
    pub cells: Vec<Setting>,
}

/// How many turns loops without a rank may take, 1 to 999,999, and what is answered once they are
/// used up, 0 to 2^31 - 1; each if it is told.
#[derive(Clone, Copy)]
pub struct FuelAsked {
    pub turns: Option<u32>,
    pub answer: Option<u32>,
}

/// A request without a question.
#[derive(Clone, Copy)]
pub enum PlainRequest<'a> {
    /// Find statements for code at a hook, and write the object.
    Annotate {
        hook: Hook,
        code: &'a str,
        object: &'a str,
        fuel: FuelAsked,
    },
    /// Make an object of each function of an ELF file that is for a hook, in the folder. `hook` is
    /// that of functions outside of the sections that hooks name.
    Build {
        file: &'a str,
        folder: &'a str,
        hook: Option<Hook>,
        fuel: FuelAsked,
    },
    /// Tell what the verifier knows of an object's program.
    Explain {
        object: &'a str,
    },
    /// Ask the questions of a file, and compare the answers with those that it expects.
    Test {
        file: &'a str,
    },
}

/// What the words of a command line ask for.
#[derive(Drop)]
pub enum HooktoolRequest<'a> {
    Plain(PlainRequest<'a>),
    /// Run an object's program on a question.
    Try {
        object: &'a str,
        question: Question<'a>,
    },
}

/// The set of `count` interfaces from the first one on.
fn hops_from(first: u8, count: u8) -> Hops
    requires { first + count ≤ 64 }
    ensures { result ≡ hops_from first count }
{
    let mut hops = Hops::NONE;
    for k in 0..count {
        hops = hops.join(Hops::only(first + k));
    }
    hops
}

/// What a place and numbers ask.
fn asked_of(places: Places, numbers: Numbers) -> Asked
    requires { numbers.interface + numbers.next_hops ≤ 64 }
    ensures { result ≡ asked_of places numbers }
{
    Asked {
        prefix: places.prefix,
        metric: numbers.metric,
        tag: numbers.tag,
        external: places.external,
        kind: places.kind,
        cost: numbers.cost,
        distance: numbers.distance,
        hops: hops_from(numbers.interface, numbers.next_hops),
        interface: u16::from(numbers.interface),
        moment: Second::new(numbers.moment),
    }
}

/// What the options ask but for the packet and the rows, and how many times. Or which of
/// their words has no meaning.
fn asked_in(matches: &ArgMatches<'_>) -> Result<(Asked, u32), WrongWord>
    ensures { ReadsOrTells (λ p. HasAsked (rows_of (found_of matches.now)) p.0 p.1) result }
{
    let places = match places_of(matches) {
        Ok(places) => places,
        Err(wrong) => return Err(wrong),
    };
    let numbers = match numbers_of(matches) {
        Ok(numbers) => numbers,
        Err(wrong) => return Err(wrong),
    };
    match number_of(matches, "times", 1, 1, 1000) {
        Some(times) => Ok((asked_of(places, numbers), times as u32)),
        None => Err(WrongWord::Times),
    }
}

/// The lists that the options give.
fn lists_in(alloc: Global, matches: &ArgMatches<'_>) -> Result<Lists, NotRead>
    ensures { ReadsOrLacks (HasLists (rows_of (found_of matches.now))) result }
{
    match rows_in(alloc, matches.get_strs("row")) {
        Ok(rows) => match settings_in(alloc, matches.get_strs("counter"), 256, 16_777_215) {
            Ok(counters) => match settings_in(alloc, matches.get_strs("cell"), 64, u64::MAX) {
                Ok(cells) => Ok(Lists {
                    rows,
                    counters,
                    cells,
                }),
                Err(lack) => Err(lack),
            },
            Err(lack) => Err(lack),
        },
        Err(lack) => Err(lack),
    }
}

/// The question that the options ask.
pub(crate) fn question_of<'a>(
    alloc: Global,
    matches: &ArgMatches<'a>,
) -> Result<Question<'a>, NotRead>
    ensures { ReadsOrLacks (HasQuestion (rows_of (found_of matches.now))) result }
{
    let (asked, times) = match asked_in(matches) {
        Ok(both) => both,
        Err(wrong) => return Err(NotRead::Meaningless(wrong)),
    };
    match packet_in(alloc, word_of(matches, "packet")) {
        Ok(packet) => match lists_in(alloc, matches) {
            Ok(lists) => {
                let Lists {
                    rows,
                    counters,
                    cells,
                } = lists;
                Ok(Question {
                    asked,
                    packet,
                    rows,
                    counters,
                    cells,
                    times,
                })
            }
            Err(lack) => Err(lack),
        },
        Err(lack) => Err(lack),
    }
}

/// What the options say of fuel, or which one is no such number.
fn fuel_of(matches: &ArgMatches<'_>) -> Result<FuelAsked, WrongWord>
    ensures { ReadsOrTells (HasFuel (rows_of (found_of matches.now))) result }
{
    let Some(turns) = told_number(matches, "fuel", 1, 999_999) else {
        return Err(WrongWord::Fuel);
    };
    match told_number(matches, "fuel-answer", 0, 0x7fff_ffff) {
        Some(answer) => Ok(FuelAsked { turns, answer }),
        None => Err(WrongWord::FuelAnswer),
    }
}

fn annotate_request<'a>(matches: &ArgMatches<'a>) -> Result<PlainRequest<'a>, WrongWord>
    ensures { ReadsOrTells (MakesPlain (codes "annotate") (rows_of (found_of matches.now))) result }
{
    let fuel = match fuel_of(matches) {
        Ok(fuel) => fuel,
        Err(wrong) => return Err(wrong),
    };
    let Some(hook) = word_of(matches, "HOOK") else {
        return Err(WrongWord::Missing);
    };
    let Some(hook) = Hook::from_name(hook) else {
        return Err(WrongWord::Hook);
    };
    let Some(code) = word_of(matches, "CODE") else {
        return Err(WrongWord::Missing);
    };
    let Some(object) = word_of(matches, "OBJECT") else {
        return Err(WrongWord::Missing);
    };
    Ok(PlainRequest::Annotate {
        hook,
        code,
        object,
        fuel,
    })
}

/// The hook of functions in no hook's section, if that is told. None if the word is no hook.
fn hook_of(matches: &ArgMatches<'_>) -> Option<Option<Hook>>
    ensures { Reads (HasHook (rows_of (found_of matches.now))) result }
{
    match word_of(matches, "hook") {
        None => Some(None),
        Some(word) => match Hook::from_name(word) {
            Some(hook) => Some(Some(hook)),
            None => None,
        },
    }
}

fn build_request<'a>(matches: &ArgMatches<'a>) -> Result<PlainRequest<'a>, WrongWord>
    ensures { ReadsOrTells (MakesPlain (codes "build") (rows_of (found_of matches.now))) result }
{
    let fuel = match fuel_of(matches) {
        Ok(fuel) => fuel,
        Err(wrong) => return Err(wrong),
    };
    let Some(file) = word_of(matches, "FILE") else {
        return Err(WrongWord::Missing);
    };
    let Some(folder) = word_of(matches, "FOLDER") else {
        return Err(WrongWord::Missing);
    };
    let Some(hook) = hook_of(matches) else {
        return Err(WrongWord::SectionHook);
    };
    Ok(PlainRequest::Build {
        file,
        folder,
        hook,
        fuel,
    })
}

fn explain_request<'a>(matches: &ArgMatches<'a>) -> Result<PlainRequest<'a>, WrongWord>
    ensures { ReadsOrTells (MakesPlain (codes "explain") (rows_of (found_of matches.now))) result }
{
    match word_of(matches, "OBJECT") {
        Some(object) => Ok(PlainRequest::Explain { object }),
        None => Err(WrongWord::Missing),
    }
}

fn test_request<'a>(matches: &ArgMatches<'a>) -> Result<PlainRequest<'a>, WrongWord>
    ensures { ReadsOrTells (MakesPlain (codes "test") (rows_of (found_of matches.now))) result }
{
    match word_of(matches, "FILE") {
        Some(file) => Ok(PlainRequest::Test { file }),
        None => Err(WrongWord::Missing),
    }
}

// What a command makes of its words, if it takes no question. No other command makes anything.
fn plain_request<'a>(name: &str, matches: &ArgMatches<'a>) -> Result<PlainRequest<'a>, WrongWord>
    ensures { ReadsOrTells (MakesPlain name.now (rows_of (found_of matches.now))) result }
{
    match name {
        "annotate" => annotate_request(matches),
        "build" => build_request(matches),
        "explain" => explain_request(matches),
        "test" => test_request(matches),
        _ => Err(WrongWord::Missing),
    }
}

fn try_request<'a>(alloc: Global, matches: &ArgMatches<'a>) -> Result<HooktoolRequest<'a>, NotRead>
    ensures { IsMade (codes "try") (rows_of (found_of matches.now)) result }
{
    let Some(object) = word_of(matches, "OBJECT") else {
        return Err(NotRead::Meaningless(WrongWord::Missing));
    };
    match question_of(alloc, matches) {
        Ok(question) => Ok(HooktoolRequest::Try { object, question }),
        Err(lack) => Err(lack),
    }
}

// What a command makes of its words. It makes nothing if there is no such command.
fn made_by<'a>(
    alloc: Global,
    name: &str,
    matches: &ArgMatches<'a>,
) -> Result<HooktoolRequest<'a>, NotRead>
    ensures { IsMade name.now (rows_of (found_of matches.now)) result }
{
    match name {
        "try" => try_request(alloc, matches),
        _ => match plain_request(name, matches) {
            Ok(plain) => Ok(HooktoolRequest::Plain(plain)),
            Err(wrong) => Err(NotRead::Meaningless(wrong)),
        },
    }
}

// The request that a command makes of its words. A wrong value if it makes none.
fn request_by<'a>(
    alloc: Global,
    name: &str,
    matches: &ArgMatches<'a>,
) -> Result<HooktoolRequest<'a>, Error>
    ensures ok { IfOk result (λ request. MadeBy name.now (rows_of (found_of matches.now))
        (Some request)) }
    ensures err { IfErr result (IsWrong name.now (rows_of (found_of matches.now))) }
{
    match made_by(alloc, name, matches) {
        Ok(request) => Ok(request),
        Err(NotRead::Meaningless(wrong)) => {
            Err(error(alloc, ErrorKind::InvalidValue, text_of(wrong)))
        }
        Err(NotRead::OutOfMemory) => Err(Error::from(AllocError)),
    }
}

/// What the command that the words name makes of its words.
pub(crate) fn request_of<'a>(
    alloc: Global,
    matches: &ArgMatches<'a>,
) -> Result<HooktoolRequest<'a>, Error>
    ensures ok { IfOk result (Makes (subcommand_rows_of matches.now)) }
    ensures err { IfErr result (λ e. (kind_of e ≡ kinds.OutOfMemory)
        ⊎ IsWrongWord (subcommand_rows_of matches.now) e) }
{
    match matches.subcommand() {
        Some((name, matches)) => request_by(alloc, name, matches),
        None => Err(error(alloc, ErrorKind::MissingSubcommand, "no command is given")),
    }
}
