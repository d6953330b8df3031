//! An area of a script: the LSAs that came in, and the candidates of one of its routers.
ghost use Rattle.std.specs.Prelude.{◌≤◌, length};
ghost use Rattle.std.specs.FinMap as finite;

use crate::telling::{push_hex, push_numbers};
use candidates::candidates;
use console::table_text;
use hex::FromHexError;
use lsdb::Lsdb;
use routes::Root;
use std::alloc::{AllocError, Global};
use std::fmt::Write;
use words::{Address, Route, RouterId, Second, Sequence, read_address, read_within};

/// The database, the router that calculates its routes, and what was printed so far.
#[derive(Drop)]
pub struct ScriptArea {
    alloc: Global,
    database: Lsdb,
    root: Root,
    text: String,
}

/// The bytes of a word, if it is `-` or hex digits.
///
/// # Errors
/// `AllocError` if an allocation is refused.
pub fn bytes_of(alloc: Global, digits: &str) -> Result<Option<Vec<u8>>, AllocError> {
    if digits == "-" {
        return Ok(Some(Vec::new(alloc)));
    }
    match hex::decode(alloc, digits) {
        Ok(bytes) => Ok(Some(bytes)),
        Err(FromHexError::OutOfMemory) => Err(AllocError),
        Err(_) => Ok(None),
    }
}

// The addresses of these words, if each is one.
fn addresses_of(alloc: Global, words: &[&str]) -> Result<Option<Vec<Address>>, AllocError> {
    let mut addresses = Vec::new(alloc);
    for word in words {
        match read_address(word) {
            Some(address) => addresses.push(address)?,
            None => return Ok(None),
        }
    }
    Ok(Some(addresses))
}

/// The router of a first line `area ROUTER ADDRESS..`, from the Router ID on.
///
/// # Errors
/// `AllocError` if an allocation is refused.
pub fn root_of(alloc: Global, words: &[&str]) -> Result<Option<Root>, AllocError> {
    let Some((router, own)) = words.split_first() else {
        return Ok(None);
    };
    let (Some(router), Some(addresses)) = (read_address(router), addresses_of(alloc, own)?) else {
        return Ok(None);
    };
    Ok(Some(Root {
        router: RouterId::new(router.bits()),
        addresses: Sequence::from_vec(addresses),
    }))
}

// `refused N`, and the number of the refusal.
fn push_refusal(text: &mut String, number: u8) -> Result<(), AllocError> {
    push_numbers(text, "refused {}\n", &[u64::from(number)])
}

// `lsa HEX` as it is written again, or its refusal.
fn push_lsa_again(text: &mut String, alloc: Global, bytes: &[u8]) -> Result<(), AllocError> {
    match lsa::read(alloc, bytes) {
        Ok(read) => {
            text.push_str("lsa ")?;
            push_hex(text, &lsa::write(alloc, &read)?)
        }
        Err(lsa::LsaError::Memory) => Err(AllocError),
        Err(error) => push_refusal(text, error.number()),
    }
}

// `packet HEX` as it is written again, or its refusal.
fn push_packet_again(text: &mut String, alloc: Global, bytes: &[u8]) -> Result<(), AllocError> {
    match packet::read(alloc, bytes) {
        Ok(read) => {
            text.push_str("packet ")?;
            push_hex(text, &packet::write(alloc, &read)?)
        }
        Err(packet::PacketError::Memory) => Err(AllocError),
        Err(error) => push_refusal(text, error.number()),
    }
}

// What a row of the table has not: `PREFIX distance D tag T` for each candidate.
fn push_rest(text: &mut String, routes: &[Route]) -> Result<(), AllocError> {
    for route in routes {
        let (distance, tag) = (route.distance, route.tag);
        writeln!(text, "{} distance {distance} tag {tag}", route.prefix)?;
    }
    Ok(())
}

impl ScriptArea {
    /// No LSA has come in.
    pub fn new(alloc: Global, root: Root) -> ScriptArea {
        ScriptArea {
            alloc,
            database: Lsdb::new(alloc, root.router),
            root,
            text: String::new(alloc),
        }
    }

    // The LSA of these bytes comes in, and the database is committed; whether it could be read.
    fn takes_lsa(&mut self, moment: Second, bytes: &[u8]) -> Result<bool, AllocError> {
        match lsa::read(self.alloc, bytes) {
            Ok(lsa) => {
                self.database.install(moment, lsa, Some(moment))?;
                self.database.commit();
                Ok(true)
            }
            Err(lsa::LsaError::Memory) => Err(AllocError),
            Err(_) => Ok(false),
        }
    }

    // Whether the candidates could be shown: of an area that is too large there are none.
    fn shows_candidates(&mut self, moment: Second) -> Result<bool, AllocError> {
        if self.database.len() > 16384 || self.root.addresses.as_slice().len() > 63 {
            return Ok(false);
        }
        let routes = candidates(self.alloc, &self.database, &self.root, moment)?;
        self.text.push_str(&table_text(self.alloc, &routes)?)?;
        push_rest(&mut self.text, &routes)?;
        Ok(true)
    }

    // What two words say: `lsa HEX`, `packet HEX`, `MOMENT candidates`.
    fn takes_two(&mut self, first: &str, second: &str) -> Result<bool, AllocError> {
        if let ("candidates", Some(moment)) = (second, read_within(first, 0, u64::MAX)) {
            return self.shows_candidates(Second::new(moment));
        }
        let Some(bytes) = bytes_of(self.alloc, second)? else {
            return Ok(false);
        };
        match first {
            "lsa" => push_lsa_again(&mut self.text, self.alloc, &bytes)?,
            "packet" => push_packet_again(&mut self.text, self.alloc, &bytes)?,
            _ => return Ok(false),
        }
        Ok(true)
    }

    // What three words say: `MOMENT lsa HEX`.
    fn takes_three(&mut self, first: &str, name: &str, digits: &str) -> Result<bool, AllocError> {
        let (Some(moment), "lsa") = (read_within(first, 0, u64::MAX), name) else {
            return Ok(false);
        };
        match bytes_of(self.alloc, digits)? {
            Some(bytes) => self.takes_lsa(Second::new(moment), &bytes),
            None => Ok(false),
        }
    }

    /// Whether the words say anything.
    ///
    /// # Errors
    /// `AllocError` if an allocation is refused.
    pub fn takes(&mut self, words: &[&str]) -> Result<bool, AllocError> {
        match *words {
            [a, b] => self.takes_two(a, b),
            [a, b, c] => self.takes_three(a, b, c),
            _ => Ok(false),
        }
    }

    /// What was printed.
    pub fn told(self) -> String {
        self.text
    }
}
