//! How the router of a script begins: what its first line says, or a later line `router`.
use flood::{Config, Interface};
use std::alloc::{AllocError, Global};
use words::{
    Address, RouterId, Second, Sequence, read_address, read_address_and_length, read_within,
};

// The intervals of all interfaces, in seconds.
#[derive(Clone, Copy)]
struct Intervals {
    hello: u16,
    dead: u32,
    retransmit: u16,
}

// Those of a script that names none.
const USUAL: Intervals = Intervals {
    hello: 10,
    dead: 40,
    retransmit: 5,
};

fn interface_at(address: Address, length: u8, intervals: Intervals) -> Interface {
    Interface {
        address,
        length,
        cost: 10,
        hello_interval: intervals.hello,
        dead_interval: intervals.dead,
        retransmit_interval: intervals.retransmit,
        delay: 1,
    }
}

// The interface of this number: 10.0.<number>.1/24.
fn interface(number: u32) -> Interface {
    let address = Address::new(0x0a00_0001_u32.wrapping_add(number.wrapping_mul(256)));
    interface_at(address, 24, USUAL)
}

// 1.1.1.1 with `interfaces` interfaces, started at 0.
fn numbered(alloc: Global, interfaces: u32) -> Result<Config, AllocError> {
    let mut taken = Vec::new(alloc);
    for number in 0..interfaces {
        taken.push(interface(number.wrapping_add(1)))?;
    }
    Ok(Config {
        router: RouterId::new(0x0101_0101),
        start: Second::new(0),
        interfaces: Sequence::from_vec(taken),
    })
}

// The number of this word, up to the most that the field has.
fn number_in(words: &[&str], at: usize, most: u64) -> Option<u64> {
    read_within(words.get(at)?, 0, most)
}

fn intervals_in(words: &[&str]) -> Option<Intervals> {
    let hello = number_in(words, 2, 65_535)?;
    let dead = number_in(words, 3, 4_294_967_295)?;
    let retransmit = number_in(words, 4, 65_535)?;
    Some(Intervals {
        hello: u16::try_from(hello).ok()?,
        dead: u32::try_from(dead).ok()?,
        retransmit: u16::try_from(retransmit).ok()?,
    })
}

// The interfaces at these places, if each word is one.
fn interfaces_at(
    alloc: Global,
    places: &[&str],
    intervals: Intervals,
) -> Result<Option<Vec<Interface>>, AllocError> {
    let mut taken = Vec::new(alloc);
    for place in places {
        match read_address_and_length(place) {
            Some((address, length)) => taken.push(interface_at(address, length, intervals))?,
            None => return Ok(None),
        }
    }
    Ok(Some(taken))
}

// Its Router ID, the moment at which it begins, and its intervals.
fn head_of(words: &[&str]) -> Option<(RouterId, Second, Intervals)> {
    let router = read_address(words.first()?)?;
    let start = number_in(words, 1, u64::MAX)?;
    let intervals = intervals_in(words)?;
    Some((RouterId::new(router.bits()), Second::new(start), intervals))
}

/// The router of a line `router ID MOMENT HELLO DEAD RETRANSMIT PLACE..`, from the Router ID on, if
/// the words are of this form.
///
/// # Errors
/// `AllocError` if an allocation is refused.
pub fn router_of(alloc: Global, words: &[&str]) -> Result<Option<Config>, AllocError> {
    let (Some((router, start, intervals)), Some(places)) = (head_of(words), words.get(5..)) else {
        return Ok(None);
    };
    let Some(interfaces) = interfaces_at(alloc, places, intervals)? else {
        return Ok(None);
    };
    Ok(Some(Config {
        router,
        start,
        interfaces: Sequence::from_vec(interfaces),
    }))
}

// How many interfaces the words of a line say that there are, up to 63.
fn count_in(words: &[&str]) -> Option<u32> {
    let [name, word] = *words else {
        return None;
    };
    if name != "interfaces" {
        return None;
    }
    let count = read_within(word, 1, 63)?;
    u32::try_from(count).ok()
}

/// The router that a first line of these words begins, if it begins one.
///
/// # Errors
/// `AllocError` if an allocation is refused.
pub fn first_of(alloc: Global, words: &[&str]) -> Result<Option<Config>, AllocError> {
    match (words.split_first(), count_in(words)) {
        (_, Some(count)) => Ok(Some(numbered(alloc, count)?)),
        (Some((name, of)), None) if *name == "router" => router_of(alloc, of),
        _ => Ok(None),
    }
}
