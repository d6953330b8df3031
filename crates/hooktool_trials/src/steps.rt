//! The lines of a test.

ghost use Rattle.std.specs.Prelude.{◌≡◌, List, [], ◌∷◌, codes, false, IfErr, IfOk, IfSome, IsTrue};
ghost use Rattle.std.specs.Prelude.{OnOk};
ghost use Rattle.hooktool_trials.specs.Steps.{AddsLine, AreLines, BeginsWith, HasOptions, Says};
ghost use Rattle.hooktool_trials.specs.Steps.{IsWrong, SaysAnswer, SaysPlain, is_blank, is_mark};
ghost use Rattle.hooktool_trials.specs.Steps.{views, words_of};

use crate::arguments::{ASK, command_of};
use crate::requests::{Question, question_of};
use crate::values::NotRead;
use crate::wrong_words::{WrongWord, text_of};
use clap::{ArgMatches, Error};
use std::alloc::{AllocError, Global};
use words::read_within;

/// An answer as a hook means it.
#[derive(Clone, Copy)]
pub enum ExpectedAnswer {
    /// `answer N`: the number, at any hook.
    Number(u64),
    /// `metric N`
    Metric(u32),
    Withheld,
    /// `tag N`
    Tag(u32),
    Installed,
    NotInstalled,
}

/// What a line says that isn't `ask`.
#[derive(Clone, Copy)]
pub enum PlainStep<'a> {
    /// `program OBJECT`: from here on its program is asked.
    Program(&'a str),
    /// `packets CAPTURE interface I`: each OSPF packet of the capture comes in there.
    Packets { path: &'a str, interface: u16 },
    /// The last run is to have answered this.
    Answers(ExpectedAnswer),
    /// `counter K N`: this is to be in the counter.
    Counter { index: u8, number: u64 },
    /// `cell J N`: this is to be in the cell.
    Cell { index: u8, number: u64 },
}

/// What a line of a test says.
#[derive(Drop)]
pub enum Step<'a> {
    Plain(PlainStep<'a>),
    /// `ask`, and the options of `try`.
    Ask(Question<'a>),
}

/// A line of a test, by its number, from 1 on, and its words.
#[derive(Drop)]
pub struct TestLine<'a> {
    pub number: u64,
    pub words: &'a [&'a str],
    pub step: Step<'a>,
}

/// Why a line says nothing that is done in a test.
#[derive(Drop)]
pub enum LineError {
    /// The options of `ask` aren't its own.
    Options(Error),
    /// What is wrong, and what is allowed.
    Words(&'static str),
    Memory,
}

/// What a name and a number say that is answered.
fn answer_of(name: &str, number: &str) -> Option<ExpectedAnswer>
    ensures { IfSome result (SaysAnswer (name.now ∷ number.now ∷ [])) }
{
    let Some(number) = read_within(number, 0, u64::MAX) else {
        return None;
    };
    match name {
        "metric" if number <= 16_777_214 => Some(ExpectedAnswer::Metric(number as u32)),
        "tag" if number <= 4_294_967_295 => Some(ExpectedAnswer::Tag(number as u32)),
        "answer" => Some(ExpectedAnswer::Number(number)),
        _ => None,
    }
}

/// What a name and two numbers say.
fn of_three<'a>(name: &str, index: &str, number: &str) -> Option<PlainStep<'a>>
    ensures { IfSome result (SaysPlain (name.now ∷ index.now ∷ number.now ∷ [])) }
{
    let Some(index) = read_within(index, 0, 255) else {
        return None;
    };
    let Some(number) = read_within(number, 0, u64::MAX) else {
        return None;
    };
    match name {
        "counter" => Some(PlainStep::Counter {
            index: index as u8,
            number,
        }),
        "cell" if index <= 63 => Some(PlainStep::Cell {
            index: index as u8,
            number,
        }),
        _ => None,
    }
}

/// What a path and a number say of packets.
fn packets_of<'a>(path: &'a str, number: &str) -> Option<PlainStep<'a>>
    ensures { IfSome result (SaysPlain (codes "packets" ∷ path.entry.now ∷ codes "interface"
        ∷ number.now ∷ [])) }
{
    match read_within(number, 0, 63) {
        Some(number) => Some(PlainStep::Packets {
            path,
            interface: number as u16,
        }),
        None => None,
    }
}

/// What the words of a line say that isn't `ask`.
fn told_by<'a>(words: &[&'a str]) -> Option<PlainStep<'a>>
    ensures { IfSome result (SaysPlain (views words.entry.now)) }
{
    match *words {
        ["withheld"] => Some(PlainStep::Answers(ExpectedAnswer::Withheld)),
        ["installed"] => Some(PlainStep::Answers(ExpectedAnswer::Installed)),
        ["program", path] => Some(PlainStep::Program(path)),
        ["not", "installed"] => Some(PlainStep::Answers(ExpectedAnswer::NotInstalled)),
        [name, number] => match answer_of(name, number) {
            Some(answer) => Some(PlainStep::Answers(answer)),
            None => None,
        },
        [name, index, number] => of_three(name, index, number),
        ["packets", path, "interface", number] => packets_of(path, number),
        _ => None,
    }
}

/// What the line `ask` finds in its words, which are options.
fn options_in<'a>(alloc: Global, words: &'a [&'a str]) -> Result<ArgMatches<'a>, LineError>
    ensures { IfOk result (HasOptions (views words.entry.now)) }
{
    match command_of(alloc, &ASK) {
        Ok(command) => match command.try_get_matches_from(words) {
            Ok(matches) => Ok(matches),
            Err(error) => Err(LineError::Options(error)),
        },
        Err(_) => Err(LineError::Memory),
    }
}

/// The step of a line that begins with `ask`, whose other words are options.
fn asked_by<'a>(alloc: Global, words: &'a [&'a str]) -> Result<Step<'a>, LineError>
    requires { BeginsWith (codes "ask") (views words.now) }
    ensures { IfOk result (Says (views words.entry.now)) }
{
    match options_in(alloc, words) {
        Ok(matches) => match question_of(alloc, &matches) {
            Ok(question) => Ok(Step::Ask(question)),
            Err(NotRead::Meaningless(wrong)) => Err(LineError::Words(text_of(wrong))),
            Err(NotRead::OutOfMemory) => Err(LineError::Memory),
        },
        Err(error) => Err(error),
    }
}

/// The step that the words of a line say.
fn step_of<'a>(alloc: Global, words: &'a [&'a str]) -> Result<Step<'a>, LineError>
    ensures { IfOk result (Says (views words.entry.now)) }
{
    if let ["ask", ..] = *words {
        return asked_by(alloc, words);
    }
    match told_by(words) {
        Some(plain) => Ok(Step::Plain(plain)),
        None => Err(LineError::Words(text_of(WrongWord::Line))),
    }
}

/// Whether the words are none, or a comment: the first one begins with `#`.
fn is_blank(words: &[&str]) -> bool
    ensures { result ≡ is_blank (views words.now) }
{
    match *words {
        [] => true,
        [first, ..] => match first.as_bytes() {
            [b'#', ..] => true,
            _ => false,
        },
    }
}

/// The first line that is wrong, by its number, and why.
#[derive(Drop)]
pub struct WrongLine {
    pub number: u64,
    pub error: LineError,
}

/// The words of a line: what stands between spaces.
fn words_of_line<'a>(alloc: Global, line: &'a str) -> Result<Vec<&'a str>, AllocError> {
    line.split(' ')
        .filter(|word| !word.is_empty())
        .collect(alloc)
}

/// The words of each line of a text.
///
/// # Errors
/// `AllocError` if an allocation is refused.
pub fn words_of_lines<'a>(alloc: Global, text: &'a str) -> Result<Vec<Vec<&'a str>>, AllocError> {
    let mut lines = Vec::new(alloc);
    for line in text.split('\n') {
        match words_of_line(alloc, line) {
            Ok(words) => lines.push(words)?,
            Err(error) => return Err(error),
        }
    }
    Ok(lines)
}

/// Adds the line of this number that the words say, if they aren't blank.
fn push_line<'a>(
    alloc: Global,
    read: &mut Vec<TestLine<'a>>,
    number: u64,
    words: &'a [&'a str],
) -> Result<(), LineError>
    ensures added { OnOk result (AddsLine number (views words.entry.now) read.old.items
        read.new.items) }
    ensures wrong { IfErr result (λ _. is_blank (views words.entry.now) ≡ false) }
{
    if is_blank(words) {
        return Ok(());
    }
    let step = match step_of(alloc, words) {
        Ok(step) => step,
        Err(error) => return Err(error),
    };
    let line = TestLine {
        number,
        words,
        step,
    };
    match read.push(line) {
        Ok(()) => Ok(()),
        Err(_) => Err(LineError::Memory),
    }
}

/// Reads the lines of a test, from the words of each: those that aren't blank.
///
/// # Errors
/// The first line that says nothing that is done in a test, or at which an allocation is refused,
/// by its number, counted from 1, and why.
pub fn read_lines<'w, 't>(
    alloc: Global,
    lines: &'w [Vec<&'t str>],
) -> Result<Vec<TestLine<'w>>, WrongLine>
    ensures lines { IfOk result (λ read. AreLines 1 (words_of lines.entry.now) read.items) }
    ensures wrong { IfErr result (IsWrong (words_of lines.entry.now)) }
{
    let mut read = Vec::new(alloc);
    for (index, words) in lines.iter().enumerate() {
        let number = index as u64 + 1;
        match push_line(alloc, &mut read, number, words.as_slice()) {
            Ok(()) => (),
            Err(error) => return Err(WrongLine { number, error }),
        }
    }
    Ok(read)
}
