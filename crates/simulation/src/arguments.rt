//! The commands, the words that each may have, and their help.
ghost use Rattle.std.specs.Prelude.{◌≡◌, ◌⊎◌};
ghost use Rattle.std.specs.IoError.{error_kind};
ghost use Rattle.clap.specs.Values.{kind_of};

use crate::reading::Wrong;
use clap::error::ErrorKind;
use clap::{Arg, ArgAction, Command, Error};
use std::alloc::{AllocError, Global};
use std::io::{self, ErrorKind as IoKind};

const ABOUT: &str = "Plays networks of many routers in memory, second by second";

const RUN_ABOUT: &str = "\
Plays a scenario from a start over a change to rest, and tells how long it takes to settle and how \
often packets go round meanwhile";

const RUN_MORE: &str = "\
Example: simulation run --topology grid --routers 50 --externals 20 --scenario link --loss 100

Prints for each part of the history after how many seconds all neighbors were Full, after how
many all databases were the same and all tables those of the rules, and in how many seconds
packets went round or into nothing; then whether all is at rest after calm seconds.

Statuses:
  0  all is at rest at the end, for each seed
  1  it isn't
  2  the words are wrong
  3  the output can't be written
  4  memory was refused";

const SEARCH_ABOUT: &str = "\
Searches by seed for a history after which Full neighbors' databases differ, and makes it short";

const SEARCH_MORE: &str = "\
Example: simulation search --topology row --routers 3 --externals 2 --hello 2 --dead 10
           --retransmit 2 --seeds 200

Prints each history that was found, act by act, and how many there are. docs/reference/ROUTER.md
tells the shortest ones packet by packet. Routers R are counted from 0 on:
  Comes, Lost, Twice, Exchanged   what becomes of the next packet (Exchanged: it and the one after
                                  it change places)
  Again(N)                        the packet comes that was sent N before the end
  Tick(R), Passes                 a Tick at R; a second, with a Tick at each router
  Announce(R, D), Withdraw(R, D)  R announces destination D, or withdraws it
  LinkDown(R, I), Restart(R)      R's interface I goes down; R begins anew
  Calm(N)                         N seconds in which all packets come

--loss, --late and --twice say by any number above 0 that packets may be lost, late or repeated.

Statuses:
  0  none was found
  1  some were found
  2  the words are wrong
  3  the output can't be written
  4  memory was refused";

const PLAY_ABOUT: &str =
    "Plays what happens at one router, line by line, and prints what goes out and what it has";

const PLAY_MORE: &str = "\
The first line of the script is `interfaces N`: the router 1.1.1.1 begins at 0 with the interfaces
10.0.1.1/24 to 10.0.N.1/24, of cost 10, HelloInterval 10, RouterDeadInterval 40, RxmtInterval 5 and
InfTransDelay 1. Or it is `router ID MOMENT HELLO DEAD RETRANSMIT PLACE..`: the router with this ID
begins at MOMENT with these intervals, and with interfaces of cost 10 at these places (10.0.1.1/24).
Each other line is one of these (empty lines and those with # say nothing):
  MOMENT tick                     time has passed
  MOMENT packet I HEX             a packet comes in at interface I; - for one without bytes
  MOMENT announce A.B.C.D/L N     an external destination is announced with metric N of type 2
  MOMENT withdraw A.B.C.D/L       it is announced no longer
  MOMENT down I                   the link at interface I is lost
  MOMENT install all              each candidate for a route is let in
  MOMENT install nothing          no candidate has an answer
  neighbors, table                prints them as a router's console does
  owed                            prints how many acknowledgments and requested LSAs each neighbor
                                  owes
  router ID MOMENT ..             another router begins in the place of this one
  database                        prints each LSA of the database, as `lsa` does, and `end`
  lsas                            prints how many LSAs the database has
  lsa TYPE ID ROUTER              prints the LSA's bytes, with its age at the last event
  announced A.B.C.D/L             prints whether the destination is announced
  candidates, offered             prints how many candidates there are; and how many rows
  stale, walks                    prints whether candidates are to be asked about; and how many
                                  walks events made, and this question

Or the first line is `area ROUTER ADDRESS..`: a router and the addresses of its interfaces, from
interface 1 on. Then each other line is one of these:
  MOMENT lsa HEX                  an LSA comes in
  MOMENT candidates               prints the routes that all LSAs offer the router, as a table; and
                                  the distance and tag of each
  lsa HEX, packet HEX             prints how these bytes are written once they are read, or
                                  `refused` and the number of their refusal

Prints `MOMENT sends I HEX` for each packet that goes out, and `MOMENT refused: ` and why for an
event that is refused. `simulation play -` plays the lines of the standard input as they come, and
prints at once what each tells (no area): so another program plays whole networks, packet by packet.

Statuses:
  0  each line was played
  1  a line says nothing: script refusal line N, and nothing else is printed
  2  the words are wrong
  3  the file can't be read, or the output can't be written
  4  memory was refused";

const SCENARIO: &str = "\
What happens after the start: start (nothing), link (lost with notice), silent (lost without), \
restart, flap, partition, announce, withdraw or storm (start)";

const WATCH: &str =
    "Look at all tables in each second, and not only where all databases are the same";

const WORKED: &str = "\
The same words print the same on any machine.

Statuses: 0 done, 1 not at rest or found, 2 usage, 3 stream, 4 memory.";

/// How a word of a command is given.
#[derive(Clone, Copy)]
enum Given {
    /// It has to be there, at its place.
    AtItsPlace,
    /// After its name with two hyphens, if it is there.
    ByName,
    /// As its name with two hyphens alone, if it is there.
    Flag,
}

// A word of a command: how it is given, its name, what its value is called and its help.
type Word = (Given, &'static str, &'static str, &'static str);

const TOPOLOGY: Word = (
    Given::ByName,
    "topology",
    "SHAPE",
    "grid, row, ring, fat-tree or random (grid)",
);

const ROUTERS: Word = (
    Given::ByName,
    "routers",
    "N",
    "How many routers there are (9)",
);

const EXTERNALS: Word = (
    Given::ByName,
    "externals",
    "N",
    "How many external destinations there are (0)",
);

const SPREAD: Word = (
    Given::ByName,
    "spread",
    "N",
    "Links cost 10 and less than N more, by chance (1)",
);

const HELLO: Word = (Given::ByName, "hello", "N", "HelloInterval (10)");

const DEAD: Word = (Given::ByName, "dead", "N", "RouterDeadInterval (40)");

const RETRANSMIT: Word = (Given::ByName, "retransmit", "N", "RxmtInterval (5)");

const LOSS: Word = (
    Given::ByName,
    "loss",
    "N",
    "How many of 10,000 packets are lost (0)",
);

const LATE: Word = (
    Given::ByName,
    "late",
    "N",
    "How many of 10,000 packets come 1 to 3 seconds later (0)",
);

const TWICE: Word = (
    Given::ByName,
    "twice",
    "N",
    "How many of 10,000 packets come twice (0)",
);

const SEED: Word = (Given::ByName, "seed", "N", "The first seed (1)");

const SEEDS: Word = (Given::ByName, "seeds", "N", "How many seeds are played (1)");

const CALM: Word = (
    Given::ByName,
    "calm",
    "N",
    "How many seconds at the end are calm: nothing is lost, late or repeated (60)",
);

/// A command: its name, its help, what stands behind that, and the words that it may have.
struct Form {
    name: &'static str,
    about: &'static str,
    more: &'static str,
    words: &'static [Word],
}

static FORMS: [Form; 3] = [
    Form {
        name: "run",
        about: RUN_ABOUT,
        more: RUN_MORE,
        words: &[
            TOPOLOGY,
            ROUTERS,
            EXTERNALS,
            SPREAD,
            (
                Given::ByName,
                "announcers",
                "N",
                "How many routers announce them (one for each 1,000)",
            ),
            (Given::ByName, "scenario", "NAME", SCENARIO),
            HELLO,
            DEAD,
            RETRANSMIT,
            LOSS,
            LATE,
            TWICE,
            SEED,
            SEEDS,
            (
                Given::ByName,
                "seconds",
                "N",
                "How many seconds the start may take, and the change (300)",
            ),
            (
                Given::ByName,
                "stay",
                "N",
                "For how many seconds all has to stay calm until a part is over (12)",
            ),
            CALM,
            (Given::Flag, "watch", "", WATCH),
            (
                Given::Flag,
                "json",
                "",
                "Print an object of JSON for each seed",
            ),
        ],
    },
    Form {
        name: "search",
        about: SEARCH_ABOUT,
        more: SEARCH_MORE,
        words: &[
            TOPOLOGY,
            ROUTERS,
            EXTERNALS,
            SPREAD,
            HELLO,
            DEAD,
            RETRANSMIT,
            LOSS,
            LATE,
            TWICE,
            SEED,
            SEEDS,
            (
                Given::ByName,
                "steps",
                "N",
                "How many acts a history has (500)",
            ),
            CALM,
            (Given::Flag, "restarts", "", "Routers begin anew, too"),
            (
                Given::Flag,
                "loops",
                "",
                "Search for neighbors that hand packets to each other",
            ),
        ],
    },
    Form {
        name: "play",
        about: PLAY_ABOUT,
        more: PLAY_MORE,
        words: &[(
            Given::AtItsPlace,
            "SCRIPT",
            "SCRIPT",
            "The file of the script; - for the standard input, line by line",
        )],
    },
];

fn argument<'a>(alloc: Global, word: &Word) -> Arg<'a> {
    let (given, name, value, help) = *word;
    let argument = Arg::new(alloc, name).help(help);
    match given {
        Given::AtItsPlace => argument.required(true),
        Given::ByName => argument.long(name).value_name(value),
        Given::Flag => argument.long(name).action(ArgAction::SetTrue),
    }
}

fn with_words<'a>(
    alloc: Global,
    command: Command<'a>,
    words: &[Word],
) -> Result<Command<'a>, AllocError> {
    let mut command = command;
    for word in words {
        command = command.arg(argument(alloc, word))?;
    }
    Ok(command)
}

fn command<'a>(alloc: Global, form: &Form) -> Result<Command<'a>, AllocError> {
    let command = Command::new(alloc, form.name)
        .about(form.about)
        .after_help(form.more);
    with_words(alloc, command, form.words)
}

fn with_command<'a>(
    alloc: Global,
    whole: Command<'a>,
    form: &Form,
) -> Result<Command<'a>, AllocError> {
    match command(alloc, form) {
        Ok(command) => whole.subcommand(command),
        Err(error) => Err(error),
    }
}

fn without_commands<'a>(alloc: Global) -> Command<'a> {
    Command::new(alloc, "simulation")
        .about(ABOUT)
        .after_help(WORKED)
        .subcommand_required(true)
        .arg_required_else_help(true)
}

/// The whole command line.
///
/// # Errors
/// `AllocError` if an allocation is refused.
pub fn whole<'a>(alloc: Global) -> Result<Command<'a>, AllocError> {
    let mut whole = without_commands(alloc);
    for form in &FORMS {
        whole = with_command(alloc, whole, form)?;
    }
    Ok(whole)
}

// An error about the words, or that memory was refused.
fn error_of(alloc: Global, kind: ErrorKind, text: &str) -> Error
    ensures { (kind_of result ≡ ErrorKind.OutOfMemory) ⊎ (kind_of result ≡ kind) }
{
    let told = match whole(alloc) {
        Ok(mut line) => line.error(kind, text),
        Err(error) => Err(error),
    };
    match told {
        Ok(error) => error,
        Err(error) => Error::from(error),
    }
}

// An error about a wrong word, or that memory was refused.
fn wrong_value(alloc: Global, text: &str) -> Error
    ensures { (kind_of result ≡ ErrorKind.OutOfMemory)
        ⊎ (kind_of result ≡ ErrorKind.InvalidValue) }
{
    error_of(alloc, ErrorKind::InvalidValue, text)
}

fn out_of_range(alloc: Global, name: &str, least: u64, most: u64) -> Error {
    match format!(in alloc; "--{name} takes a number from {least} to {most}") {
        Ok(text) => wrong_value(alloc, text.as_str()),
        Err(error) => Error::from(error),
    }
}

/// The text for words that are wrong, or that memory was refused.
pub fn told(alloc: Global, wrong: Wrong) -> Error {
    match wrong {
        Wrong::Command => error_of(alloc, ErrorKind::MissingSubcommand, "no command is given"),
        Wrong::Topology => wrong_value(alloc, "there is no such topology"),
        Wrong::Scenario => wrong_value(alloc, "there is no such scenario"),
        Wrong::Number { name, least, most } => out_of_range(alloc, name, least, most),
    }
}

/// The text for words that can't be read: memory was refused, or a word isn't UTF-8.
pub fn unreadable_words(alloc: Global, error: &io::Error) -> Error
    ensures memory { error_kind error.now ≡ IoKind.OutOfMemory
        → kind_of result ≡ ErrorKind.OutOfMemory }
    ensures value { (kind_of result ≡ ErrorKind.OutOfMemory)
        ⊎ (kind_of result ≡ ErrorKind.InvalidValue) }
{
    match error.kind() {
        IoKind::OutOfMemory => Error::from(AllocError),
        _ => wrong_value(alloc, "a word isn't UTF-8"),
    }
}
