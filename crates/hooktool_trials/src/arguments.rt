//! The commands, the words that each may have, and their help.

ghost use Rattle.std.specs.Prelude.{◌≡◌, ◌⊎◌, IfOk};
ghost use Rattle.clap.specs.Simple.{app_of, new_app, with_subcommand};
ghost use Rattle.clap.specs.Values.{kind_of};
ghost use Rattle.hooktool_trials.specs.Building.{IsArgument, IsLeaf, IsLocal, shape_for, with_forms};
ghost use Rattle.hooktool_trials.specs.Building.{without_commands};
ghost use Rattle.hooktool_trials.specs.CommandLine as line;

use clap::error::ErrorKind;
use clap::{Arg, ArgAction, Command, Error};
use std::alloc::{AllocError, Global};

const ABOUT: &str =
    "Makes loadable objects of programs, tells what the verifier knows of them, and tries them on \
        a question";

const ANNOTATE_ABOUT: &str =
    "Finds the statements and ranks that the verifier asks for, and writes an object that it \
        accepts";

const ANNOTATE_MORE: &str = "\
Example: hooktool annotate price price.bin price.o

where price.bin is made of C by
  clang -O2 -target bpf -mcpu=v3 -c price.c -o price.elf
  llvm-objcopy -O binary --only-section=.text price.elf price.bin

CODE may be an object too, which begins with BPFH: the statements that it has are kept. Of an ELF
file hooktool build makes objects.

A loop that counts up has no rank, a number that falls with each turn. If it is found how often
such loops go back at most, the code counts that, and never uses it up: turns counted, at most
N, is printed then. With --fuel N you say how often they may go back in one run, all loops
together, those in one another too. Where they would go back more often, the program answers
what --fuel-answer says: without it 0, at price 16777215, which withholds the destination.

Prints accepted bound N, as routerd verify does: OBJECT was written. Or prints where the
verifier refuses, by which rule, what it knows there, what is allowed, and what an author can
change; OBJECT is then as it was.

Statuses:
  0  accepted, and OBJECT was written
  1  not accepted, or CODE is no code for the hook: code refusal N slot S, object refusal N, an
     object for another hook, an ELF file
  2  the words are wrong
  3  CODE can't be read, or OBJECT or the output can't be written
  4  memory was refused

examples/c/README.md says which C is accepted, and what to write instead of what isn't.";

const BUILD_ABOUT: &str =
    "Makes an object of each function that clang compiled for a hook, as annotate does of bare code";

const BUILD_MORE: &str = "\
Example: hooktool build bogons.elf objects

where bogons.elf is made of C by
  clang -O2 -target bpf -mcpu=v3 -c bogons.c -o bogons.elf

(hookcc calls both.) A function is for the hook that its section is named by, as
SEC(\"veto\") in C, and its object is FOLDER/FUNCTION.o. With --hook also the functions of .text,
those without SEC, are programs, for that hook. --fuel and --fuel-answer are annotate's.

Prints for each function FOLDER/FUNCTION.o: HOOK, accepted bound N, and it was written; or why it
isn't: what the code uses or calls that a program doesn't have, by its name and the slot, or what
the verifier refuses. FOLDER has to be there.

Statuses:
  0  each function was accepted, and its object written
  1  one wasn't, or FILE isn't what clang writes
  2  the words are wrong
  3  FILE can't be read, or an object or the output can't be written
  4  memory was refused";

const EXPLAIN_ABOUT: &str =
    "Prints a program slot by slot, with all that the verifier knows there, and where and why it \
        refuses: that of an object file, or each function of an ELF file";

const EXPLAIN_MORE: &str = "\
Examples: hooktool explain sum.o
          hooktool explain bogons.elf

where bogons.elf is what clang -target bpf -c wrote: each function in the section of a hook is
explained with the statements that annotate finds for it, whether it is accepted or not.

Prints each slot's instruction, and below it each register that may still be read and what is
known of the stack; at a statement its rank. The last line is routerd verify's: accepted bound N,
or refused slot S rule R with the rule's name, the value that breaks it, and what is allowed.

Statuses:
  0  accepted; of an ELF file, each of its functions
  1  refused, or the file holds no program: object refusal N, code refusal N slot S, or what in
     an ELF file isn't as it has to be
  2  the words are wrong
  3  the file can't be read, or the output can't be written
  4  memory was refused

docs/reference/VERIFIER.md has each rule, and docs/use/HOOKTOOL.md how to read what is printed.";

const TRY_ABOUT: &str =
    "Runs the program of an object file on a question that its hook may be asked, accepted or not, \
        and prints its answer";

const TRY_MORE: &str = "\
Examples: hooktool try falling_metric.o --prefix 203.0.113.0/24 --metric 50
          hooktool try count_types.o --packet 0201 --interface 1 --times 3

Options that a hook's question doesn't have change nothing: docs/reference/FORMATS.md, 'Contexts',
has each hook's fields. What isn't given is 0, type 2, intra, no packet and no rows.

Prints for each run the answer in the hook's terms (metric 20, withheld, tag 7, installed, not
installed; at count answer 3, which isn't used) and how many instructions it took of those that
the object allows; or a trap, with its slot, instruction and registers. Then the counters and
cells that aren't 0.

Statuses:
  0  each run answered
  1  a run was stuck or too long, or the file holds no program: object refusal N,
     code refusal N slot S
  2  the words are wrong
  3  a file can't be read, or the output can't be written
  4  memory was refused";

const TEST_ABOUT: &str =
    "Asks programs the questions of a file, in a row, and compares the answers with those that it \
        expects";

const TEST_MORE: &str = "\
Example: hooktool test damping.test

where damping.test has lines like these:
  # a comment
  program damping.o
  ask --prefix 10.1.0.0/16 --moment 1000 --counter 17=3
  installed
  counter 17 4

program OBJECT names the object that is asked from there on. ask takes the options of try, and a
line below it is what try prints of the last run: metric N, withheld, tag N, installed, not
installed, answer N, counter K N, cell J N. packets CAPTURE interface I asks of each OSPF packet
of a pcap file, at its second. Counters and cells go on from one question to the next.

Prints the Test Anything Protocol, version 14: a test point for each line that asks and for each
expected answer, and what was found where one isn't ok.

Statuses:
  0  each point is ok
  1  one isn't
  2  the words are wrong, or a line of FILE, which is named, or its file can't be read
  3  FILE can't be read, or the output can't be written
  4  memory was refused

docs/use/HOOKTOOL.md has each line.";

const HOOK: &str = "The hook that the code is for: count, tag, price or veto";

const CODE: &str = "Bare code, or an object that lacks statements";

const TYPE: &str = "The type of the external destination";

const FUEL: &str = "How often loops without a rank may go back in one run, in all, 1 to 999999";

const FUEL_ANSWER: &str =
    "What is answered once --fuel is used up, 0 to 2147483647; 0 unless told, at price 16777215";

const INTERFACE: &str =
    "The interface that the packet came on, or by which the route leaves, 0 to 63";

const NEXT_HOPS: &str =
    "How many next hops the route has, 1 to 64: by the interface and those after it";

const ROW: &str = "A row of the routing table; may be given again";

const COUNTER: &str =
    "Adds N, up to 16777215, to counter K, 0 to 255, before the runs; may be given again";

const CELL: &str = "Stores N in cell J, 0 to 63, before the runs; may be given again";

const TIMES: &str = "How many runs in a row, on the same counters and cells, 1 to 1000";

// The end of the top-level help.
const WORKED: &str = "\
Examples:
  hooktool annotate price price.bin price.o    prints accepted bound 42, and writes price.o
  hooktool build programs.elf objects          the same of what clang wrote, for each function
  hooktool explain price.o                     prints what the verifier knows at each slot
  hooktool try price.o --metric 50             prints metric 20, used 12 of 42
  hooktool test price.test                     prints 1..2, ok 1 - line 2: ask --metric 50, ..

Statuses: 0 done, 1 refused or stuck, 2 usage, 3 file or stream, 4 memory.

Leafrunt 0.4.0";

/// How a word of a command is given.
#[derive(Clone, Copy)]
pub(crate) enum Given {
    /// It has to be there, at its place.
    Required,
    /// After its name with two hyphens, at most once.
    Once,
    /// After its name with two hyphens, any number of times.
    Repeated,
}

/// A word that a command takes: its name, what its value is called, and its help.
#[derive(Clone, Copy)]
pub(crate) struct Word {
    pub given: Given,
    pub name: &'static str,
    pub value: &'static str,
    pub help: &'static str,
}

/// A topic of the help: a command, or all of them.
#[derive(Clone, Copy)]
pub(crate) enum Topic {
    Commands,
    Annotate,
    Build,
    Explain,
    Try,
    Test,
    Ask,
}

/// A command: its name, its help, and its words.
#[derive(Clone, Copy)]
pub(crate) struct Form {
    pub name: &'static str,
    pub help: Topic,
    pub words: &'static [Word],
}

const ANNOTATE_WORDS: [Word; 5] = [
    Word {
        given: Given::Required,
        name: "HOOK",
        value: "HOOK",
        help: HOOK,
    },
    Word {
        given: Given::Required,
        name: "CODE",
        value: "CODE",
        help: CODE,
    },
    Word {
        given: Given::Required,
        name: "OBJECT",
        value: "OBJECT",
        help: "The object file that is written",
    },
    Word {
        given: Given::Once,
        name: "fuel",
        value: "N",
        help: FUEL,
    },
    Word {
        given: Given::Once,
        name: "fuel-answer",
        value: "N",
        help: FUEL_ANSWER,
    },
];

const BUILD_WORDS: [Word; 5] = [
    Word {
        given: Given::Required,
        name: "FILE",
        value: "FILE",
        help: "The ELF file that clang wrote",
    },
    Word {
        given: Given::Required,
        name: "FOLDER",
        value: "FOLDER",
        help: "The folder that the objects are written to",
    },
    Word {
        given: Given::Once,
        name: "hook",
        value: "HOOK",
        help: "The hook of functions in .text: count, tag, price or veto",
    },
    Word {
        given: Given::Once,
        name: "fuel",
        value: "N",
        help: FUEL,
    },
    Word {
        given: Given::Once,
        name: "fuel-answer",
        value: "N",
        help: FUEL_ANSWER,
    },
];

const EXPLAIN_WORDS: [Word; 1] = [Word {
    given: Given::Required,
    name: "OBJECT",
    value: "OBJECT",
    help: "The object file, or the ELF file that clang wrote",
}];

const PREFIX_WORD: Word = Word {
    given: Given::Once,
    name: "prefix",
    value: "A.B.C.D/L",
    help: "The destination",
};

const METRIC_WORD: Word = Word {
    given: Given::Once,
    name: "metric",
    value: "N",
    help: "The configured metric",
};

const TAG_WORD: Word = Word {
    given: Given::Once,
    name: "tag",
    value: "N",
    help: "The configured tag, or the route's",
};

const TYPE_WORD: Word = Word {
    given: Given::Once,
    name: "type",
    value: "1|2",
    help: TYPE,
};

const COST_WORD: Word = Word {
    given: Given::Once,
    name: "cost",
    value: "N",
    help: "The route's cost",
};

const DISTANCE_WORD: Word = Word {
    given: Given::Once,
    name: "distance",
    value: "N",
    help: "The distance of a type 2 route",
};

const KIND_WORD: Word = Word {
    given: Given::Once,
    name: "kind",
    value: "KIND",
    help: "The route's kind: intra, inter, ext1 or ext2",
};

const MOMENT_WORD: Word = Word {
    given: Given::Once,
    name: "moment",
    value: "N",
    help: "The moment in seconds",
};

const INTERFACE_WORD: Word = Word {
    given: Given::Once,
    name: "interface",
    value: "N",
    help: INTERFACE,
};

const NEXT_HOPS_WORD: Word = Word {
    given: Given::Once,
    name: "next-hops",
    value: "N",
    help: NEXT_HOPS,
};

const PACKET_WORD: Word = Word {
    given: Given::Once,
    name: "packet",
    value: "HEX|@FILE",
    help: "The packet",
};

const ROW_WORD: Word = Word {
    given: Given::Repeated,
    name: "row",
    value: "A.B.C.D/L=COST",
    help: ROW,
};

const COUNTER_WORD: Word = Word {
    given: Given::Repeated,
    name: "counter",
    value: "K=N",
    help: COUNTER,
};

const CELL_WORD: Word = Word {
    given: Given::Repeated,
    name: "cell",
    value: "J=N",
    help: CELL,
};

const TIMES_WORD: Word = Word {
    given: Given::Once,
    name: "times",
    value: "N",
    help: TIMES,
};

const TRY_WORDS: [Word; 16] = [
    Word {
        given: Given::Required,
        name: "OBJECT",
        value: "OBJECT",
        help: "The object file",
    },
    PREFIX_WORD,
    METRIC_WORD,
    TAG_WORD,
    TYPE_WORD,
    COST_WORD,
    DISTANCE_WORD,
    KIND_WORD,
    MOMENT_WORD,
    INTERFACE_WORD,
    NEXT_HOPS_WORD,
    PACKET_WORD,
    ROW_WORD,
    COUNTER_WORD,
    CELL_WORD,
    TIMES_WORD,
];

const TEST_WORDS: [Word; 1] = [Word {
    given: Given::Required,
    name: "FILE",
    value: "FILE",
    help: "The file of questions and expected answers",
}];

const ASK_WORDS: [Word; 15] = [
    PREFIX_WORD,
    METRIC_WORD,
    TAG_WORD,
    TYPE_WORD,
    COST_WORD,
    DISTANCE_WORD,
    KIND_WORD,
    MOMENT_WORD,
    INTERFACE_WORD,
    NEXT_HOPS_WORD,
    PACKET_WORD,
    ROW_WORD,
    COUNTER_WORD,
    CELL_WORD,
    TIMES_WORD,
];

const ANNOTATE: Form = Form {
    name: "annotate",
    help: Topic::Annotate,
    words: &ANNOTATE_WORDS,
};

const BUILD: Form = Form {
    name: "build",
    help: Topic::Build,
    words: &BUILD_WORDS,
};

const EXPLAIN: Form = Form {
    name: "explain",
    help: Topic::Explain,
    words: &EXPLAIN_WORDS,
};

const TRY: Form = Form {
    name: "try",
    help: Topic::Try,
    words: &TRY_WORDS,
};

const TEST: Form = Form {
    name: "test",
    help: Topic::Test,
    words: &TEST_WORDS,
};

/// The line of a test that asks a question.
pub(crate) const ASK: Form = Form {
    name: "ask",
    help: Topic::Ask,
    words: &ASK_WORDS,
};

// The help on this topic: in a line, and after the words. The long texts stand in this function
// alone, since a proof writes out a text for each state of a function that names it.
fn help_on(topic: Topic) -> (&'static str, &'static str) {
    match topic {
        Topic::Commands => (ABOUT, WORKED),
        Topic::Annotate => (ANNOTATE_ABOUT, ANNOTATE_MORE),
        Topic::Build => (BUILD_ABOUT, BUILD_MORE),
        Topic::Explain => (EXPLAIN_ABOUT, EXPLAIN_MORE),
        Topic::Try => (TRY_ABOUT, TRY_MORE),
        Topic::Test => (TEST_ABOUT, TEST_MORE),
        Topic::Ask => ("Asks a question in a test", ""),
    }
}

// A word, as an argument of a command.
fn argument<'a>(alloc: Global, word: &Word) -> Arg<'a>
    ensures { IsArgument word.now result }
{
    let argument = Arg::new(alloc, word.name)
        .value_name(word.value)
        .help(word.help);
    match word.given {
        Given::Required => argument.required(true),
        Given::Once => argument.long(word.name),
        Given::Repeated => argument.long(word.name).action(ArgAction::Append),
    }
}

// A command of this name with its help, so far without words.
fn titled<'a>(alloc: Global, name: &'a str, topic: Topic) -> Command<'a>
    ensures app { app_of result ≡ new_app name.entry.now }
    ensures local { IsLocal result }
{
    let (about, more) = help_on(topic);
    Command::new(alloc, name).about(about).after_help(more)
}

/// The command of this form.
pub(crate) fn command_of<'a>(alloc: Global, form: &Form) -> Result<Command<'a>, AllocError>
    ensures { IfOk result (IsLeaf form.now) }
{
    let mut command = titled(alloc, form.name, form.help);
    for word in form.words {
        match command.arg(argument(alloc, word)) {
            Ok(more) => command = more,
            Err(error) => return Err(error),
        }
    }
    Ok(command)
}

// The command line, without its commands.
fn without_commands<'a>(alloc: Global) -> Command<'a>
    ensures { app_of result ≡ without_commands }
{
    titled(alloc, "hooktool", Topic::Commands)
        .subcommand_required(true)
        .arg_required_else_help(true)
}

// The line with the command of this form too.
fn with_command<'a>(
    alloc: Global,
    line: Command<'a>,
    form: &Form,
) -> Result<Command<'a>, AllocError>
    ensures { IfOk result (λ c. app_of c ≡ with_subcommand (app_of line.entry)
        (shape_for form.now)) }
{
    match command_of(alloc, form) {
        Ok(command) => line.subcommand(command),
        Err(error) => Err(error),
    }
}

// The command line with the commands of these forms, in their order.
fn line_of<'a>(alloc: Global, forms: &[&Form]) -> Result<Command<'a>, AllocError>
    ensures { IfOk result (λ c. app_of c ≡ with_forms without_commands forms.now) }
{
    let mut line = without_commands(alloc);
    for form in forms {
        match with_command(alloc, line, form) {
            Ok(more) => line = more,
            Err(error) => return Err(error),
        }
    }
    Ok(line)
}

/// The whole command line.
pub(crate) fn whole<'a>(alloc: Global) -> Result<Command<'a>, AllocError>
    ensures { IfOk result (λ c. app_of c ≡ line.line) }
{
    let forms = [&ANNOTATE, &BUILD, &EXPLAIN, &TRY, &TEST];
    line_of(alloc, &forms)
}

/// An error of this kind about the words of a command line, or want of memory.
pub(crate) fn error(alloc: Global, kind: ErrorKind, text: &str) -> Error
    ensures { (kind_of result ≡ ErrorKind.OutOfMemory) ⊎ (kind_of result ≡ kind) }
{
    let told = match whole(alloc) {
        Ok(mut line) => line.error(kind, text),
        Err(error) => Err(error),
    };
    match told {
        Ok(error) => error,
        Err(error) => Error::from(error),
    }
}
