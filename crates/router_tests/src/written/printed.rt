//! What is printed.
use console::{ConfigurationError, counters_text, totals_text};
use std::alloc::{AllocError, Global};
use std::process::Abort;
use std::test::Fail;
use words::{Address, AreaId, LinkStateId, Prefix, RouterId};

const PRINTED: &str =
    "10.0.1.254 0.0.0.0 255.255.255.255 203.0.113.9 203.0.113.0/24, config refusal line 3, out of memory";

#[test]
fn names_and_refusals_are_printed(rt: HostRuntime) -> Result<(), Fail> {
    let router = RouterId::new(0x0a00_01fe);
    let area = AreaId::BACKBONE;
    let id = LinkStateId::new(0xffff_ffff);
    let address = Address::new(0xcb00_7109);
    let network = Prefix::under(address, 24).ok_or("a length of 24")?;
    let (line, memory) = (ConfigurationError::Line(3), ConfigurationError::Memory);
    let printed = format!(in rt.alloc();
        "{router} {area} {id} {address} {network}, {line}, {memory}"
    )?;
    assert!(rt; printed.as_str() == PRINTED, "{printed}");
    Ok(())
}

// Counters of zero have no line, and totals no end.
const SUMS: &[u64] = &[0, 18_446_744_073_709_551_615, 0, 7];

const SUMS_TEXT: &str =
    "counter 1 18446744073709551615\ncounter 3 7\nend\ncounter 1 18446744073709551615\ncounter 3 7\n";

fn sums_text(alloc: Global, sums: &[u64]) -> Result<String, AllocError> {
    let (counters, totals) = (counters_text(alloc, sums)?, totals_text(alloc, sums)?);
    format!(in alloc; "{counters}{totals}")
}

#[test]
fn counters_are_printed(rt: HostRuntime) -> Result<(), Fail> {
    let printed = sums_text(rt.alloc(), SUMS)?;
    assert!(rt; printed.as_str() == SUMS_TEXT, "{printed}");
    Ok(())
}
