//! What a line of a script says.
use words::{
    External, ExternalType, Key, LinkStateId, Prefix, RouterId, Second, read_address, read_prefix,
    read_within,
};

/// What happens at the router.
#[derive(Clone, Copy)]
pub enum Happening {
    /// `tick`: time has passed.
    Tick,
    /// `packet I HEX`: the packet of the last word comes in at interface I; `-` means no bytes.
    Packet(u16),
    /// `announce P METRIC`: the destination is announced, with a metric of type 2 and no tag.
    Announce(External),
    /// `withdraw P`
    Withdraw(Prefix),
    /// `down I`: the link at interface I is lost.
    Down(u16),
    /// `install all`: each candidate is let in.
    InstallAll,
    /// `install nothing`: no candidate has an answer.
    InstallNothing,
}

/// What is shown of the router.
#[derive(Clone, Copy)]
pub enum Shown {
    /// `neighbors`
    Neighbors,
    /// `owed`: how many acknowledgments and requested LSAs each neighbor that isn't Down owes.
    Owed,
    /// `table`
    Table,
    /// `candidates`: how many there are, and whether a router that walks anew has the same.
    Candidates,
    /// `offered`: how many candidates and how many rows there are.
    Offered,
    /// `stale`: whether candidates are to be asked about.
    Stale,
    /// `walks`: how many walks events made since this was last looked at, and how many it takes to
    /// ask the router now whether it is stale.
    Walks,
    /// `database`: each LSA's bytes, with its age at the last event, and `end`.
    Database,
    /// `lsas`: how many LSAs the database has.
    Lsas,
    /// `lsa TYPE ID ROUTER`: the LSA's bytes, with its age at the last event.
    Lsa(Key),
    /// `announced P`: whether the destination is announced.
    Announced(Prefix),
}

/// A line.
#[derive(Clone, Copy)]
pub enum ScriptLine {
    /// `MOMENT ..`: at this moment this happens.
    Happens(Second, Happening),
    Shows(Shown),
}

fn moment(word: &str) -> Option<Second> {
    let seconds = read_within(word, 0, u64::MAX)?;
    Some(Second::new(seconds))
}

fn interface(word: &str) -> Option<u16> {
    let number = read_within(word, 0, 65_535)?;
    Some(number as u16)
}

fn destination(prefix: &str, metric: &str) -> Option<External> {
    let metric = read_within(metric, 0, 16_777_215)?;
    Some(External {
        prefix: read_prefix(prefix)?,
        metric: metric as u32,
        kind: ExternalType::Type2,
        tag: 0,
    })
}

fn key(ls_type: &str, link_state_id: &str, router: &str) -> Option<Key> {
    let ls_type = read_within(ls_type, 1, 255)?;
    let link_state_id = read_address(link_state_id)?;
    let router = read_address(router)?;
    Some(Key {
        ls_type: ls_type as u32,
        link_state_id: LinkStateId::new(link_state_id.bits()),
        advertising_router: RouterId::new(router.bits()),
    })
}

// What a name and a word behind it let happen.
fn with_one(name: &str, word: &str) -> Option<Happening> {
    match (name, word) {
        ("withdraw", _) => Some(Happening::Withdraw(read_prefix(word)?)),
        ("down", _) => Some(Happening::Down(interface(word)?)),
        ("install", "all") => Some(Happening::InstallAll),
        ("install", "nothing") => Some(Happening::InstallNothing),
        _ => None,
    }
}

// What a name and two words behind it let happen.
fn with_two(name: &str, first: &str, second: &str) -> Option<Happening> {
    match name {
        "packet" => Some(Happening::Packet(interface(first)?)),
        "announce" => Some(Happening::Announce(destination(first, second)?)),
        _ => None,
    }
}

// What a single word shows.
fn shown_by(name: &str) -> Option<Shown> {
    match name {
        "neighbors" => Some(Shown::Neighbors),
        "owed" => Some(Shown::Owed),
        "table" => Some(Shown::Table),
        "candidates" => Some(Shown::Candidates),
        "offered" => Some(Shown::Offered),
        "stale" => Some(Shown::Stale),
        "walks" => Some(Shown::Walks),
        "database" => Some(Shown::Database),
        "lsas" => Some(Shown::Lsas),
        _ => None,
    }
}

// What two words say.
fn of_two(first: &str, second: &str) -> Option<ScriptLine> {
    match (first, second) {
        ("announced", _) => Some(ScriptLine::Shows(Shown::Announced(read_prefix(second)?))),
        (_, "tick") => Some(ScriptLine::Happens(moment(first)?, Happening::Tick)),
        _ => None,
    }
}

// What four words say.
fn of_four(first: &str, second: &str, third: &str, fourth: &str) -> Option<ScriptLine> {
    if first == "lsa" {
        return Some(ScriptLine::Shows(Shown::Lsa(key(second, third, fourth)?)));
    }
    let moment = moment(first)?;
    Some(ScriptLine::Happens(moment, with_two(second, third, fourth)?))
}

/// What the words of a line say, if it is anything.
pub fn line_of(words: &[&str]) -> Option<ScriptLine> {
    match *words {
        [a] => Some(ScriptLine::Shows(shown_by(a)?)),
        [a, b] => of_two(a, b),
        [a, b, c] => Some(ScriptLine::Happens(moment(a)?, with_one(b, c)?)),
        [a, b, c, d] => of_four(a, b, c, d),
        _ => None,
    }
}
