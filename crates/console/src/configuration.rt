//! The text of a configuration.
ghost use Rattle.std.specs.Prelude.{◌≡◌, ◌≢◌, ℕ, ◌+◌, ◌≤◌, ◌<◌, ◌^◌, [], ◌∷◌, List, ◌==◌, Err};
ghost use Rattle.std.specs.Prelude.{IfOk, MatchOption, decimal, codes, length};
ghost use Rattle.std.specs.List.{list_any};
ghost use Rattle.console.specs.Configurations.{interface_words, router_words, without_last_feed};
ghost use Rattle.console.specs.Configurations.{lines_in, AreInterfaces, AreLines, IsInterface};
ghost use Rattle.console.specs.Configurations.{IsRouter, MayFollow, Refuses, RefusesInterfaces};
ghost use Rattle.console.specs.Configurations.{RefusesLines, Says, SaysInterface, SaysRouter};
ghost use Rattle.console.specs.Views.{views};
ghost use Rattle.words.specs.Prefixes.{Network};
ghost use Rattle.words.specs.Text.{dotted_address, prefix_text};
ghost use Rattle.console.specs.declared.configuration.ConfiguredInterface.{ConfiguredInterface};

use crate::reading::{is_text, words_of};
use adjacency::Interface;
use std::alloc::{AllocError, AllocFailed, Global};
use thiserror::Error;
use words::{Address, RouterId, Sequence, read_address, read_address_and_length, read_within};

/// An interface from a line of a configuration.
#[derive(Clone, Copy, Debug)]
pub struct ConfiguredInterface {
    /// Its network and its parameters.
    pub interface: Interface,
    /// The UDP port of 127.0.0.1 on which it receives.
    pub udp_port: u16,
    /// The UDP port of 127.0.0.1 to which it sends.
    pub peer: u16,
}

/// A router's configuration from a text.
#[derive(Debug, Drop)]
pub struct Configured {
    pub router: RouterId,
    /// The interfaces 1, 2, .., no two with the same address: at least one, at most 63.
    pub interfaces: Sequence<ConfiguredInterface>,
}

/// Why a text isn't a configuration. Displayed as the line that is printed.
#[derive(Debug, Drop, Error)]
pub enum ConfigurationError {
    /// The number of the first wrong line, from 1, or the one after the last if an interface is
    /// missing.
    #[error("config refusal line {0}")]
    Line(u64),
    /// An allocation was refused.
    #[error("out of memory")]
    Memory,
}

impl From<AllocError> for ConfigurationError {
    ghost use Rattle.console.specs.declared.configuration.ConfigurationError.TheVariants.{Memory};

    ghost from_gives = { λ _ error. error ≡ Memory };

    fn from(_error: AllocError) -> ConfigurationError {
        ConfigurationError::Memory
    }
}

impl<T: Drop> From<AllocFailed<T>> for ConfigurationError {
    ghost use Rattle.console.specs.declared.configuration.ConfigurationError.TheVariants.{Memory};

    ghost from_gives = { λ _ error. error ≡ Memory };

    fn from(_error: AllocFailed<T>) -> ConfigurationError {
        ConfigurationError::Memory
    }
}

/// The number of a setting in two words: its name and, in decimal, a number from `least` to `most`.
fn read_setting(words: (&str, &str), name: &str, least: u64, most: u64) -> Option<u64>
    ensures { MatchOption result
        ((n : ℕ) → least ≤ n → n ≤ most → words.entry.0.now ≡ name.now
        → words.entry.1.now ≡ decimal n → ⊥)
        (λ n. (words.entry.0.now ≡ name.now) × (words.entry.1.now ≡ decimal n) × (least ≤ n)
        × (n ≤ most)) }
{
    if !is_text(words.0, name) {
        return None;
    }
    read_within(words.1, least, most)
}

/// The Router ID that the word spells, which isn't 0.0.0.0.
fn read_router_id(word: &str) -> Option<RouterId>
    ensures { MatchOption result
        ((r : ℕ) → IsRouter r → word.now ≢ dotted_address r) (λ r. (word.now ≡ dotted_address r)
        × IsRouter r) }
{
    let Some(id) = read_address(word) else {
        return None;
    };
    if id.bits() == 0 {
        return None;
    }
    Some(RouterId::new(id.bits()))
}

/// The Router ID in the words of the first line.
fn router_of(words: &[&str]) -> Option<RouterId>
    ensures { MatchOption result
        ((r : ℕ) → IsRouter r → views words.now ≢ router_words r)
        (λ r. (views words.now ≡ router_words r) × IsRouter r) }
{
    let [name, id] = *words else {
        return None;
    };
    if !is_text(name, "router") {
        return None;
    }
    read_router_id(id)
}

/// The address and the prefix length in the words after `interface`, the first of which has to be
/// the interface's number.
fn read_where(number: u64, name: &str, at: &str, place: &str) -> Option<(Address, u8)>
    ensures { MatchOption result
        ((n : Network) → n.address < 2 ^ 32 → n.length ≤ 32 → name.now ≡ codes "interface"
        → at.now ≡ decimal number → place.now ≢ prefix_text n)
        (λ p. (name.now ≡ codes "interface") × (at.now ≡ decimal number)
        × (place.now ≡ prefix_text (record { address = p.0; length = p.1 })) × (p.0 < 2 ^ 32)
        × (p.1 ≤ 32)) }
{
    if !is_text(name, "interface") {
        return None;
    }
    match read_within(at, number, number) {
        Some(_) => read_address_and_length(place),
        None => None,
    }
}

/// The interface in the words of a line, if it is the one with this number.
fn interface_of(number: u64, words: &[&str]) -> Option<ConfiguredInterface>
    ensures { MatchOption result
        ((c : ConfiguredInterface) → IsInterface c → views words.now ≢ interface_words number c)
        (λ c. (views words.now ≡ interface_words number c) × IsInterface c) }
{
    let [
        name,
        at,
        place,
        cost,
        c,
        hello,
        h,
        dead,
        d,
        rxmt,
        r,
        delay,
        t,
        port,
        p,
        peer,
        q,
    ] = *words
    else {
        return None;
    };
    let (address, length) = read_where(number, name, at, place)?;
    let cost = read_setting((cost, c), "cost", 1, 65_535)?;
    let hello_interval = read_setting((hello, h), "hello", 1, 65_535)?;
    let dead_interval = read_setting((dead, d), "dead", 1, 4_294_967_295)?;
    let retransmit_interval = read_setting((rxmt, r), "rxmt", 1, 65_535)?;
    let delay = read_setting((delay, t), "delay", 1, 3_600)?;
    let udp_port = read_setting((port, p), "port", 1, 65_535)?;
    let peer = read_setting((peer, q), "peer", 1, 65_535)?;
    Some(ConfiguredInterface {
        interface: Interface {
            address,
            length,
            cost: cost as u16,
            hello_interval: hello_interval as u16,
            dead_interval: dead_interval as u32,
            retransmit_interval: retransmit_interval as u16,
            delay: delay as u16,
        },
        udp_port: udp_port as u16,
        peer: peer as u16,
    })
}

/// The Router ID in a line.
fn read_router(alloc: Global, line: &str) -> Result<Option<RouterId>, AllocError>
    ensures { IfOk result (λ found. MatchOption found
        ((r : ℕ) → SaysRouter line.now r → ⊥) (SaysRouter line.now)) }
{
    let words = words_of(alloc, line)?;
    Ok(router_of(&words))
}

/// The interface with this number in a line.
fn read_interface(
    alloc: Global,
    number: u64,
    line: &str,
) -> Result<Option<ConfiguredInterface>, AllocError>
    ensures { IfOk result (λ found. MatchOption found
        ((c : ConfiguredInterface) → SaysInterface number line.now c → ⊥)
        (SaysInterface number line.now)) }
{
    let words = words_of(alloc, line)?;
    Ok(interface_of(number, &words))
}

/// Whether one of these has the interface's address.
fn is_taken(before: &[ConfiguredInterface], found: &ConfiguredInterface) -> bool
    ensures { result
        ≡ list_any (λ other. other.interface.address == found.now.interface.address) before.now }
{
    let address = found.interface.address.bits();
    before
        .iter()
        .any(|other| other.interface.address.bits() == address)
}

/// The interface in the next line, if it may follow these.
fn next_interface(
    alloc: Global,
    line: &str,
    before: &[ConfiguredInterface],
) -> Result<Option<ConfiguredInterface>, AllocError>
    ensures { IfOk result (λ found. MatchOption found
        ((c : ConfiguredInterface) → SaysInterface (length before.now + 1) line.now c
        → MayFollow before.now c → ⊥)
        (λ c. SaysInterface (length before.now + 1) line.now c × MayFollow before.now c)) }
{
    if before.len() >= 63 {
        return Ok(None);
    }
    match read_interface(alloc, before.len() as u64 + 1, line)? {
        Some(found) => {
            if is_taken(before, &found) {
                return Ok(None);
            }
            Ok(Some(found))
        }
        None => Ok(None),
    }
}

/// The interfaces in the lines after the router's.
fn interfaces_of(
    alloc: Global,
    lines: &[&str],
) -> Result<Vec<ConfiguredInterface>, ConfigurationError>
    ensures said { IfOk result (λ interfaces. AreInterfaces (views lines.now) interfaces.items) }
    ensures refused { (number : ℕ) → result ≡ Err (ConfigurationError.Line number)
        → RefusesInterfaces (views lines.now) number }
{
    let mut interfaces = Vec::new(alloc);
    for line in lines {
        match next_interface(alloc, line, &interfaces)? {
            Some(interface) => interfaces.push(interface)?,
            None => return Err(ConfigurationError::Line(interfaces.len() as u64 + 2)),
        }
    }
    if interfaces.is_empty() {
        return Err(ConfigurationError::Line(2));
    }
    Ok(interfaces)
}

/// The configuration in these lines.
fn configured_of(alloc: Global, lines: &[&str]) -> Result<Configured, ConfigurationError>
    ensures said { IfOk result (AreLines (views lines.now)) }
    ensures refused { (number : ℕ) → result ≡ Err (ConfigurationError.Line number)
        → RefusesLines (views lines.now) number }
{
    let [first, others @ ..] = lines else {
        return Err(ConfigurationError::Line(1));
    };
    let Some(router) = read_router(alloc, first)? else {
        return Err(ConfigurationError::Line(1));
    };
    let interfaces = interfaces_of(alloc, others)?;
    Ok(Configured {
        router,
        interfaces: Sequence::from_vec(interfaces),
    })
}

fn without_last_feed(text: &str) -> &str
    ensures { result.now ≡ without_last_feed text.now }
{
    match text.strip_suffix('\n') {
        Some(front) => front,
        None => text,
    }
}

fn lines_of<'a>(alloc: Global, text: &'a str) -> Result<Vec<&'a str>, AllocError>
    ensures { IfOk result (λ lines. views lines.items ≡ lines_in text.now) }
{
    let front = without_last_feed(text);
    front.split('\n').collect(alloc)
}

/// Parses a configuration: the line `router A.B.C.D`, then for each interface, N = 1, 2, .., the
/// line `interface N A.B.C.D/L cost C hello H dead D rxmt R delay T port P peer Q`.
///
/// The words of a line are separated by one space, and there is nothing else: no space before,
/// after or twice, no comment, no carriage return. Numbers are decimal, with neither a sign nor a
/// leading zero, and so are the four parts of an address. A line feed ends each line; after the
/// last line it is optional. There are no empty lines.
///
/// The Router ID isn't 0.0.0.0. Addresses are distinct, their host bits may be set, and a length is
/// at most 32. Cost, HelloInterval and RxmtInterval are 1 to 65,535, RouterDeadInterval is 1 to
/// 4,294,967,295, InfTransDelay 1 to 3,600 (RFC 2328, section C.3), the two UDP ports of 127.0.0.1
/// are 1 to 65,535. There are 1 to 63 interfaces.
///
/// # Errors
/// `Line` with the number of the first line that isn't like this, or is one too many, or repeats an
/// address; or of the line after the last, if an interface is missing. `Memory` if an allocation is
/// refused.
pub fn read_configuration(alloc: Global, text: &str) -> Result<Configured, ConfigurationError>
    ensures said { IfOk result (Says text.now) }
    ensures refused { (number : ℕ) → result ≡ Err (ConfigurationError.Line number)
        → Refuses text.now number }
{
    let lines = lines_of(alloc, text)?;
    configured_of(alloc, &lines)
}
