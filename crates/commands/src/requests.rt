//! The requests that commands and their words make.

ghost use Rattle.std.specs.Prelude.{◌≡◌, ◌≢◌, ◌⊎◌, [], ℕ, codes, replicate, option_map, IfOk};
ghost use Rattle.std.specs.Prelude.{IfErr, IfSome, MatchResult, Err, Ok, Some, None};
ghost use Rattle.std.specs.Result.{result_ok};
ghost use Rattle.clap.specs.Matches.{found_of};
ghost use Rattle.clap.specs.Simple.{subcommand_rows_of};
ghost use Rattle.clap.specs.Values.{kind_of};
ghost use Rattle.clap.specs.Walk.{first_of, rows_of};
ghost use Rattle.clap.specs.declared.error.kind.ErrorKind.TheVariants as kinds;
ghost use Rattle.hex.specs.declared.error.FromHexError.TheVariants.{OutOfMemory};
ghost use Rattle.hex.specs.Hex.{decode_of, decode_sized};
ghost use Rattle.isa.specs.declared.hook.Hook.{Hook};
ghost use Rattle.commands.specs.Requests.{HasSeats, IsWrong, IsWrongWord, MadeBy, Makes};

use crate::commands::wrong_value;
use clap::{ArgMatches, Error};
use hex::{FromHex, FromHexError};
use isa::Hook;
use std::alloc::{AllocError, Global};

/// The request that the words of a command line make.
#[derive(Drop)]
pub enum CommandRequest<'a> {
    /// Run raw code once on each of `seats` threads.
    Raw {
        hook: Hook,
        file: &'a str,
        seats: usize,
    },
    /// Run the program of an object file once, on this context and packet.
    Run {
        object: &'a str,
        context: [u8; 64],
        packet: Vec<u8>,
    },
    /// Assemble a text into an object file.
    Asm {
        source: &'a str,
        object: &'a str,
    },
    /// Print the text of an object file.
    List {
        object: &'a str,
    },
    /// Verify the program of an object file.
    Verify {
        object: &'a str,
    },
    /// Run a router with a configuration.
    Route {
        config: &'a str,
    },
}

/// The context that a word stands for: zeros for `-`, or 64 bytes in hex. `None` if it is neither.
fn context_of(word: &str) -> Option<[u8; 64]>
    ensures dash { word.now ≡ codes "-" → result ≡ Some (replicate 64 0) }
    ensures hex { word.now ≢ codes "-" → result ≡ result_ok (decode_sized word.now 64) }
{
    if word == "-" {
        return Some([0; 64]);
    }
    <[u8; 64] as FromHex>::from_hex(word).ok()
}

/// The packet that a word stands for: an empty one for `-`, else bytes in hex.
fn packet_of(alloc: Global, word: &str) -> Result<Vec<u8>, FromHexError>
    ensures dash { word.now ≡ codes "-" → MatchResult result (λ bytes. bytes.items ≡ []) (λ _. ⊥) }
    ensures hex { word.now ≢ codes "-" → MatchResult result (λ bytes. decode_of word.now
        ≡ Ok bytes.items) (λ e. (e ≡ OutOfMemory) ⊎ (decode_of word.now ≡ Err e)) }
{
    if word == "-" {
        return Ok(Vec::new(alloc));
    }
    hex::decode(alloc, word)
}

fn word_of<'a>(matches: &ArgMatches<'a>, name: &str) -> Option<&'a str>
    ensures { option_map (λ word. word.now) result
        ≡ first_of name.now (rows_of (found_of matches.now)) }
{
    matches.get_str(name)
}

fn seats_of(matches: &ArgMatches<'_>) -> Option<usize>
    ensures some { IfSome result (HasSeats (rows_of (found_of matches.now))) }
    ensures none { result ≡ None → (seats : ℕ) → HasSeats (rows_of (found_of matches.now)) seats
        → ⊥ }
{
    match matches.get_one::<u8>("SEATS") {
        Some(seats) if 1 <= seats && seats <= 64 => Some(usize::from(seats)),
        _ => None,
    }
}

fn raw_request<'a>(matches: &ArgMatches<'a>) -> Option<CommandRequest<'a>>
    ensures { MadeBy (codes "raw") (rows_of (found_of matches.now)) result }
{
    let hook = Hook::from_name(word_of(matches, "HOOK")?)?;
    let file = word_of(matches, "FILE")?;
    let seats = seats_of(matches)?;
    Some(CommandRequest::Raw { hook, file, seats })
}

fn run_request<'a>(
    alloc: Global,
    matches: &ArgMatches<'a>,
) -> Result<Option<CommandRequest<'a>>, Error>
    ensures ok { IfOk result (MadeBy (codes "run") (rows_of (found_of matches.now))) }
    ensures err { IfErr result (IsWrong (codes "run") (rows_of (found_of matches.now))) }
{
    let object = word_of(matches, "OBJECT");
    let context = word_of(matches, "CONTEXT");
    let packet = word_of(matches, "PACKET");
    let (Some(object), Some(context), Some(packet)) = (object, context, packet) else {
        return Ok(None);
    };
    let Some(context) = context_of(context) else {
        return Err(wrong_value(alloc, "CONTEXT is neither - nor 128 hex digits"));
    };
    match packet_of(alloc, packet) {
        Ok(packet) => Ok(Some(CommandRequest::Run {
            object,
            context,
            packet,
        })),
        Err(FromHexError::OutOfMemory) => Err(Error::from(AllocError)),
        Err(_) => Err(wrong_value(alloc, "PACKET is neither - nor hex digits, two a byte")),
    }
}

fn asm_request<'a>(matches: &ArgMatches<'a>) -> Option<CommandRequest<'a>>
    ensures { MadeBy (codes "asm") (rows_of (found_of matches.now)) result }
{
    let source = word_of(matches, "SOURCE")?;
    let object = word_of(matches, "OBJECT")?;
    Some(CommandRequest::Asm { source, object })
}

fn list_request<'a>(matches: &ArgMatches<'a>) -> Option<CommandRequest<'a>>
    ensures { MadeBy (codes "list") (rows_of (found_of matches.now)) result }
{
    let object = word_of(matches, "OBJECT")?;
    Some(CommandRequest::List { object })
}

fn verify_request<'a>(matches: &ArgMatches<'a>) -> Option<CommandRequest<'a>>
    ensures { MadeBy (codes "verify") (rows_of (found_of matches.now)) result }
{
    let object = word_of(matches, "OBJECT")?;
    Some(CommandRequest::Verify { object })
}

fn route_request<'a>(matches: &ArgMatches<'a>) -> Option<CommandRequest<'a>>
    ensures { MadeBy (codes "route") (rows_of (found_of matches.now)) result }
{
    let config = word_of(matches, "CONFIG")?;
    Some(CommandRequest::Route { config })
}

// The request that a command makes of its words. `None` if it makes none, or there is no such
// command.
fn made_by<'a>(
    alloc: Global,
    name: &str,
    matches: &ArgMatches<'a>,
) -> Result<Option<CommandRequest<'a>>, Error>
    ensures ok { IfOk result (MadeBy name.now (rows_of (found_of matches.now))) }
    ensures err { IfErr result (IsWrong name.now (rows_of (found_of matches.now))) }
{
    match name {
        "raw" => Ok(raw_request(matches)),
        "run" => run_request(alloc, matches),
        "asm" => Ok(asm_request(matches)),
        "list" => Ok(list_request(matches)),
        "verify" => Ok(verify_request(matches)),
        "route" => Ok(route_request(matches)),
        _ => Ok(None),
    }
}

// The request that a command makes of its words. An invalid-value error if it makes none.
fn request_by<'a>(
    alloc: Global,
    name: &str,
    matches: &ArgMatches<'a>,
) -> Result<CommandRequest<'a>, Error>
    ensures ok { IfOk result (λ request. MadeBy name.now (rows_of (found_of matches.now))
        (Some request)) }
    ensures err { IfErr result (IsWrong name.now (rows_of (found_of matches.now))) }
{
    match made_by(alloc, name, matches) {
        Ok(Some(request)) => Ok(request),
        Ok(None) => Err(wrong_value(alloc, "a word of the command has no meaning")),
        Err(error) => Err(error),
    }
}

/// The request that the named command makes of its words. `None` if the words name no command.
pub(crate) fn request_of<'a>(
    alloc: Global,
    matches: &ArgMatches<'a>,
) -> Result<Option<CommandRequest<'a>>, Error>
    ensures some { IfOk result (λ o. IfSome o (Makes (subcommand_rows_of matches.now))) }
    ensures none { IfOk result (λ o. o ≡ None → subcommand_rows_of matches.now ≡ None) }
    ensures err { IfErr result (λ e. (kind_of e ≡ kinds.OutOfMemory)
        ⊎ IsWrongWord (subcommand_rows_of matches.now) e) }
{
    match matches.subcommand() {
        Some((name, matches)) => match request_by(alloc, name, matches) {
            Ok(request) => Ok(Some(request)),
            Err(error) => Err(error),
        },
        None => Ok(None),
    }
}
