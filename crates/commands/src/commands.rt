//! The commands, the words that each requires, and their help.

ghost use Rattle.std.specs.Prelude.{◌≡◌, ◌⊎◌, ℕ, List, false, codes, pos, IfOk};
ghost use Rattle.std.specs.Borrow.{Bor};
ghost use Rattle.clap.specs.Simple.{app_of};
ghost use Rattle.clap.specs.Values.{kind_of};
ghost use Rattle.clap.specs.Walk.{rule_of};
ghost use Rattle.clap.specs.Simple.{shape_of};
ghost use Rattle.clap.specs.declared.builder.command.Command.TheViews.{out-Command as fields_of};
ghost use Rattle.clap.specs.declared.builder.value_parser.ValueParser.TheVariants.{Names, Signed};
ghost use Rattle.commands.specs.CommandLine.{IsCommandLine, hook_names};
ghost use Rattle.commands.specs.CommandLine as line;

use clap::builder::ValueParser;
use clap::error::ErrorKind;
use clap::{Arg, Command, Error, value_parser};
use std::alloc::{AllocError, Global};

const ABOUT: &str = "Runs a router, and assembles, lists, verifies and runs its programs.";

const RAW: &str =
    "Runs bare code (slots of 8 bytes) once on each of SEATS threads, all on the same counters, \
        and prints each answer and each counter above 0";

const RAW_EXAMPLE: &str = "\
Example: routerd raw count adds.bin 2

Prints seat I answer A used U for each seat I, or seat I trap N where its run was stuck or too long,
and then counter K V for each counter K that is above 0.

Statuses:
  0  each seat answered
  1  a seat trapped, or the file holds no code: code refusal N slot S
  2  the words are wrong
  3  the file can't be read, or the output can't be written
  4  memory was refused

docs/reference/FORMATS.md has the format of the code and each refusal,
docs/reference/MACHINE.md each trap.";

const RUN: &str =
    "Runs the program of an object file once, on no table rows, and prints its answer and how many \
        instructions it took";

const RUN_EXAMPLE: &str = "\
Example: routerd run sum.o - -

Prints answer A used U, or trap N where the run was stuck or too long.

Statuses:
  0  it answered
  1  it trapped, or the file holds no program: object refusal N, code refusal N slot S
  2  the words are wrong
  3  the file can't be read, or the output can't be written
  4  memory was refused

docs/reference/FORMATS.md has the format of the object, the context and each refusal,
docs/reference/MACHINE.md each trap.";

const CONTEXT: &str = "The 64 bytes of the context as 128 hex digits, or - for zeros";

const PACKET: &str = "The bytes of the packet in hex digits, or - for none";

const ASM: &str = "Assembles a text into an object file, and prints how many slots its code has";

const ASM_EXAMPLE: &str = "\
Example: routerd asm sum.s sum.o

Prints ok L: the object file was written, and its code has L slots.

Statuses:
  0  the object file was written
  1  the text spells no object: source refusal N line K
  2  the words are wrong
  3  the text can't be read, or the object file or the output can't be written
  4  memory was refused

docs/reference/FORMATS.md has the format of the text, of the object and each refusal.";

const LIST: &str = "Prints a text that assembles to the object file";

const LIST_EXAMPLE: &str = "\
Example: routerd list sum.o

Statuses:
  0  the text was printed
  1  the file holds no program: object refusal N, code refusal N slot S
  2  the words are wrong
  3  the file can't be read, or the output can't be written
  4  memory was refused

docs/reference/FORMATS.md has the format of the object, of the text and each refusal.";

const VERIFY: &str =
    "Verifies the program of an object file: whether each run of it is safe, and within how many \
        instructions it ends";

// The end of the help of `verify`: what it prints, and the rules.
const VERIFY_RULES: &str = "\
Example: routerd verify sum.o

Prints accepted bound N, with status 0: on no input is a run of the program stuck,
and each ends within N instructions.
Or prints refused slot S rule R, with status 1: the first slot that breaks a rule,
and the number of the rule:

   1 Target     a jump or a statement at a slot where no instruction begins
   2 FallsOff   the last instruction is neither exit nor an unconditional jump
   3 Unreached  no statement behind exit or an unconditional jump
   4 Unstated   a jump to a slot without a statement
   5 Empty      an empty register or stack byte may be read
   6 Kind       a pointer may be used as a number, or a number as a pointer
   7 Bounds     a load or store may lie outside of its region
   8 Align      a load or store in a map may not be of eight bytes at a multiple of eight
   9 Helper     this hook has no helper of this number
  10 Argument   a helper's argument may be too large
  11 NotWithin  what is known may lie outside of the statement that comes next
  12 Rank       the rank may rise at a statement, or may not fall on a jump back
  13 Budget     the entry rank plus 1, times the slots, is above 1,000,000
  14 ExitKind   a pointer may be answered
  15 Frame      r10 is written

Statuses:
  0  accepted
  1  refused, or the file holds no program: object refusal N, code refusal N slot S
  2  the words are wrong
  3  the file can't be read, or the output can't be written
  4  memory was refused

hooktool explain OBJECT tells which register and value break the rule, and what is allowed.
For each rule docs/reference/VERIFIER.md has the smallest program that breaks it, and how to mend
it. docs/reference/FORMATS.md has the format of object files and of statements, and each other
refusal.";

const ROUTE: &str =
    "Runs a router (OSPFv2, RFC 2328) by a configuration, with a console on the standard input and \
        output, until quit or the end of input";

const ROUTE_EXAMPLE: &str = "\
Example: routerd route one.conf

The configuration:
  router A.B.C.D
  interface N A.B.C.D/L cost C hello H dead D rxmt R delay T port P peer Q
with a line for each interface, N = 1, 2, ..

The console: attach PATH, detach HOOK, add A.B.C.D/L METRIC TYPE TAG, withdraw A.B.C.D/L,
table, neighbors, counters, quit.

Statuses:
  0  ended by quit or the end of input
  1  the configuration is wrong: config refusal line K; or nobody can ask programs: hook refusal N
  2  the words are wrong
  3  the configuration can't be read, a port can't be had, the output can't be written, or a socket
     failed while the router ran
  4  memory was refused, or a thread

docs/use/OPERATING.md has the form of the configuration, each line of the console and each
refusal.";

// The end of the top-level help: a line for each command and what it prints, the exit statuses and
// the version.
const WORKED: &str = "\
Examples:
  routerd raw count adds.bin 2  prints seat 1 answer 0 used 4, seat 2 answer 0 used 4, counter 5 6
  routerd asm sum.s sum.o       prints ok 6
  routerd list sum.o            prints hook price, rank 10, r1 = 10 and the other lines of the text
  routerd verify sum.o          prints accepted bound 66
  routerd run sum.o - -         prints answer 55 used 33
  routerd route one.conf        runs a router with a console

Statuses: 0 done, 1 refused or stuck, 2 usage, 3 file, socket or stream, 4 memory.

Leafrunt 0.4.0";

// The names of the hooks, as in `Hook::name`, which a `static` can't call. The contract of `hook`
// holds of no others.
static HOOKS: [&str; 4] = ["count", "tag", "price", "veto"];

fn required<'a>(alloc: Global, name: &'a str, help: &'a str) -> Arg<'a>
    ensures rule { rule_of result ≡ line.required_word name.entry.now }
    ensures local { result.global ≡ false }
{
    Arg::new(alloc, name)
        .value_name(name)
        .help(help)
        .required(true)
}

/// A required word that this parser has to accept.
fn checked<'a>(alloc: Global, name: &'a str, help: &'a str, parser: ValueParser<'a>) -> Arg<'a>
    ensures rule { rule_of result ≡ line.checked_word name.entry.now parser.entry }
    ensures local { result.global ≡ false }
{
    required(alloc, name, help).value_parser(parser)
}

/// One of the names of the hooks.
fn hook_parser<'a>() -> ValueParser<'a>
    ensures { (hooks : Bor (List (Bor (List ℕ)))) × (a b c d : ℕ × ℕ)
        × (hooks.now ≡ hook_names a b c d)
        × (result ≡ Names hooks) }
{
    ValueParser::from(HOOKS.as_slice())
}

fn hook<'a>(alloc: Global) -> Arg<'a>
    ensures rule { (hooks : Bor (List (Bor (List ℕ)))) × (a b c d : ℕ × ℕ)
        × (hooks.now ≡ hook_names a b c d)
        × (rule_of result ≡ line.checked_word (codes "HOOK") (Names hooks)) }
    ensures local { result.global ≡ false }
{
    let parser = hook_parser();
    checked(alloc, "HOOK", "The hook that the code is run at", parser)
}

fn seats<'a>(alloc: Global) -> Arg<'a>
    ensures rule { rule_of result ≡ line.checked_word (codes "SEATS") (Signed (pos 1) (pos 64)) }
    ensures local { result.global ≡ false }
{
    required(alloc, "SEATS", "How many threads run it, 1 to 64").value_parser(value_parser!(
        u8
    ).range(1..=64))
}

fn raw<'a>(alloc: Global) -> Result<Command<'a>, AllocError>
    ensures app { IfOk result (λ command. (hooks : Bor (List (Bor (List ℕ)))) × (a b c d : ℕ × ℕ)
        × (hooks.now ≡ hook_names a b c d)
        × (shape_of command ≡ line.raw hooks)) }
    ensures local { IfOk result (λ c. (fields_of c).has_globals ≡ false) }
{
    Command::new(alloc, "raw")
        .about(RAW)
        .after_help(RAW_EXAMPLE)
        .arg(hook(alloc))?
        .arg(required(alloc, "FILE", "The file that holds the code"))?
        .arg(seats(alloc))
}

fn run<'a>(alloc: Global) -> Result<Command<'a>, AllocError>
    ensures app { IfOk result (λ c. shape_of c ≡ line.run) }
    ensures local { IfOk result (λ c. (fields_of c).has_globals ≡ false) }
{
    Command::new(alloc, "run")
        .about(RUN)
        .after_help(RUN_EXAMPLE)
        .arg(required(alloc, "OBJECT", "The object file"))?
        .arg(required(alloc, "CONTEXT", CONTEXT))?
        .arg(required(alloc, "PACKET", PACKET))
}

fn asm<'a>(alloc: Global) -> Result<Command<'a>, AllocError>
    ensures app { IfOk result (λ c. shape_of c ≡ line.asm) }
    ensures local { IfOk result (λ c. (fields_of c).has_globals ≡ false) }
{
    Command::new(alloc, "asm")
        .about(ASM)
        .after_help(ASM_EXAMPLE)
        .arg(required(alloc, "SOURCE", "The text"))?
        .arg(required(alloc, "OBJECT", "The object file that is written"))
}

fn list<'a>(alloc: Global) -> Result<Command<'a>, AllocError>
    ensures app { IfOk result (λ c. shape_of c ≡ line.list) }
    ensures local { IfOk result (λ c. (fields_of c).has_globals ≡ false) }
{
    let object = required(alloc, "OBJECT", "The object file");
    Command::new(alloc, "list")
        .about(LIST)
        .after_help(LIST_EXAMPLE)
        .arg(object)
}

fn verify<'a>(alloc: Global) -> Result<Command<'a>, AllocError>
    ensures app { IfOk result (λ c. shape_of c ≡ line.verify) }
    ensures local { IfOk result (λ c. (fields_of c).has_globals ≡ false) }
{
    let object = required(alloc, "OBJECT", "The object file");
    Command::new(alloc, "verify")
        .about(VERIFY)
        .after_help(VERIFY_RULES)
        .arg(object)
}

fn route<'a>(alloc: Global) -> Result<Command<'a>, AllocError>
    ensures app { IfOk result (λ c. shape_of c ≡ line.route) }
    ensures local { IfOk result (λ c. (fields_of c).has_globals ≡ false) }
{
    let config = required(alloc, "CONFIG", "The file that holds the configuration");
    Command::new(alloc, "route")
        .about(ROUTE)
        .after_help(ROUTE_EXAMPLE)
        .arg(config)
}

/// The whole command line.
pub(crate) fn whole<'a>(alloc: Global) -> Result<Command<'a>, AllocError>
    ensures { IfOk result (λ c. IsCommandLine (app_of c)) }
{
    Command::new(alloc, "routerd")
        .about(ABOUT)
        .after_help(WORKED)
        .subcommand_required(true)
        .arg_required_else_help(true)
        .subcommand(raw(alloc)?)?
        .subcommand(run(alloc)?)?
        .subcommand(asm(alloc)?)?
        .subcommand(list(alloc)?)?
        .subcommand(verify(alloc)?)?
        .subcommand(route(alloc)?)
}

/// An error about the words of a command line.
pub(crate) fn error(alloc: Global, kind: ErrorKind, text: &str) -> Result<Error, AllocError>
    ensures { IfOk result (λ error. kind_of error ≡ kind) }
{
    whole(alloc)?.error(kind, text)
}

/// An error about a wrong word, or about a refused allocation.
pub(crate) fn wrong_value(alloc: Global, text: &str) -> Error
    ensures { (kind_of result ≡ ErrorKind.OutOfMemory) ⊎ (kind_of result ≡ ErrorKind.InvalidValue) }
{
    match error(alloc, ErrorKind::InvalidValue, text) {
        Ok(error) => error,
        Err(error) => Error::from(error),
    }
}
