//! What is printed: what goes out, refusals, and what a router has.
use console::{neighbors_text, table_text};
use flood::{Core, CoreError, Out};
use std::alloc::{AllocError, Global};
use std::fmt::Write;
use words::{Key, Prefix, Route, Second};

/// Adds the digits of bytes, and the end of the line.
///
/// # Errors
/// `AllocError` if an allocation is refused.
pub fn push_hex(text: &mut String, bytes: &[u8]) -> Result<(), AllocError> {
    for byte in bytes {
        write!(text, "{byte:02x}")?;
    }
    text.push_str("\n")
}

/// Adds a line with numbers in the places of its `{}`.
///
/// # Errors
/// `AllocError` if an allocation is refused.
pub fn push_numbers(text: &mut String, line: &str, numbers: &[u64]) -> Result<(), AllocError> {
    let mut rest = line;
    for number in numbers {
        let Some((before, behind)) = rest.split_once("{}") else {
            break;
        };
        write!(text, "{before}{number}")?;
        rest = behind;
    }
    text.push_str(rest)
}

// `MOMENT sends I HEX` for each packet.
fn push_outs(text: &mut String, moment: Second, outs: &[Out]) -> Result<(), AllocError> {
    for out in outs {
        let numbers = [moment.count(), u64::from(out.interface)];
        push_numbers(text, "{} sends {} ", &numbers)?;
        push_hex(text, out.bytes.as_slice())?;
    }
    Ok(())
}

/// Adds what an event sends, or `MOMENT refused: ` and why.
///
/// # Errors
/// `AllocError` if an allocation is refused.
pub fn push_answer(
    text: &mut String,
    moment: Second,
    answer: &Result<Vec<Out>, CoreError>,
) -> Result<(), AllocError> {
    match answer {
        Ok(outs) => push_outs(text, moment, outs),
        Err(error) => writeln!(text, "{} refused: {error}", moment.count()),
    }
}

/// Adds a line for each neighbor that isn't Down, and `end`.
///
/// # Errors
/// `AllocError` if an allocation is refused.
pub fn push_neighbors(text: &mut String, alloc: Global, core: &Core) -> Result<(), AllocError> {
    let mut neighbors = Vec::new(alloc);
    for number in 1..=core.interface_count() {
        neighbors.push(core.neighbor((number % 64) as u16))?;
    }
    text.push_str(&neighbors_text(alloc, &neighbors)?)
}

/// Adds `owed I N` for each neighbor that isn't Down: its retransmission list and its request list
/// have N entries.
///
/// # Errors
/// `AllocError` if an allocation is refused.
pub fn push_owed(text: &mut String, core: &Core) -> Result<(), AllocError> {
    for interface in 1..=core.interface_count() {
        let number = (interface % 64) as u16;
        if core.neighbor(number).is_some() {
            let numbers = [u64::from(number), core.owes(number) as u64];
            push_numbers(text, "owed {} {}\n", &numbers)?;
        }
    }
    Ok(())
}

/// Adds a line for each row of the table, and `end`.
///
/// # Errors
/// `AllocError` if an allocation is refused.
pub fn push_table(text: &mut String, alloc: Global, core: &Core) -> Result<(), AllocError> {
    text.push_str(&table_text(alloc, &core.rows()?)?)
}

// The candidates of a router that walks anew.
fn candidates_anew(core: &Core) -> Result<Vec<Route>, AllocError> {
    let copy = core.copy()?;
    let routes = copy.candidates();
    copy.close();
    routes?.to_vec()
}

/// Adds `candidates N`, and `, others anew` if a router that walks anew has others.
///
/// # Errors
/// `AllocError` if an allocation is refused.
pub fn push_candidates(text: &mut String, core: &Core) -> Result<(), AllocError> {
    let kept = core.candidates()?.to_vec()?;
    let anew = candidates_anew(core)?;
    let line = if kept.as_slice() == anew.as_slice() {
        "candidates {}\n"
    } else {
        "candidates {}, others anew\n"
    };
    push_numbers(text, line, &[kept.len() as u64])
}

/// Adds `offered N M`: how many candidates and how many rows there are.
///
/// # Errors
/// `AllocError` if an allocation is refused.
pub fn push_offered(text: &mut String, core: &Core) -> Result<(), AllocError> {
    let offered = core.offered()?;
    let numbers = [offered.candidates.len() as u64, offered.rows.len() as u64];
    push_numbers(text, "offered {} {}\n", &numbers)
}

/// Adds the LSA's bytes, with its age at the moment of the last event, or `none`.
///
/// # Errors
/// `AllocError` if an allocation is refused.
pub fn push_lsa(
    text: &mut String,
    alloc: Global,
    core: &Core,
    key: &Key,
) -> Result<(), AllocError> {
    let Some(copy) = core.database().get(key) else {
        return text.push_str("lsa none\n");
    };
    let bytes = copy.text(alloc, copy.age(core.moment()))?;
    text.push_str("lsa ")?;
    push_hex(text, bytes.as_slice())
}

/// Adds `lsas N`: how many LSAs the database has.
///
/// # Errors
/// `AllocError` if an allocation is refused.
pub fn push_count(text: &mut String, core: &Core) -> Result<(), AllocError> {
    push_numbers(text, "lsas {}\n", &[core.database().len() as u64])
}

/// Adds a line for each LSA of the database, as `push_lsa` does, and `end`.
///
/// # Errors
/// `AllocError` if an allocation is refused.
pub fn push_database(text: &mut String, alloc: Global, core: &Core) -> Result<(), AllocError> {
    for key in core.database().keys() {
        push_lsa(text, alloc, core, &key)?;
    }
    text.push_str("end\n")
}

/// Adds whether the destination is announced.
///
/// # Errors
/// `AllocError` if an allocation is refused.
pub fn push_announced(text: &mut String, core: &Core, prefix: Prefix) -> Result<(), AllocError> {
    let told = if core.wants(prefix) { "yes" } else { "no" };
    writeln!(text, "announced {prefix} {told}")
}
