//! Lines of the console, printed as they are read.
use console::read_command;
use std::alloc::{AllocError, Global};
use std::process::Abort;
use std::test::Fail;

// 203.0.113.0/24 is 3405803776 of 24 bits.
const COMMANDS: &[(&str, &str)] = &[
    ("attach a", "Some(Attach(\"a\"))"),
    (
        "attach programs/veto.bin",
        "Some(Attach(\"programs/veto.bin\"))",
    ),
    ("detach count", "Some(Detach(Count))"),
    ("detach tag", "Some(Detach(Tag))"),
    ("detach price", "Some(Detach(Price))"),
    ("detach veto", "Some(Detach(Veto))"),
    (
        "withdraw 203.0.113.0/24",
        "Some(Withdraw(Prefix { bits: 3405803776, length: 24 }))",
    ),
    ("table", "Some(Table)"),
    ("neighbors", "Some(Neighbors)"),
    ("counters", "Some(Counters)"),
    ("quit", "Some(Quit)"),
    (
        "add 203.0.113.0/24 0 1 4294967295",
        "Some(Add(External { prefix: Prefix { bits: 3405803776, length: 24 }, metric: 0, kind: Type1, tag: 4294967295 }))",
    ),
    (
        "add 203.0.113.0/24 16777214 2 0",
        "Some(Add(External { prefix: Prefix { bits: 3405803776, length: 24 }, metric: 16777214, kind: Type2, tag: 0 }))",
    ),
    ("", "None"),
    ("hello", "None"),
    ("Table", "None"),
    ("table ", "None"),
    (" table", "None"),
    ("table\r", "None"),
    ("table now", "None"),
    ("attach", "None"),
    ("attach ", "None"),
    ("attach a b", "None"),
    ("detach", "None"),
    ("detach  veto", "None"),
    ("detach tags", "None"),
    ("add 203.0.113.0/24 16777215 2 0", "None"),
    ("add 203.0.113.0/24 20 3 0", "None"),
    ("add 203.0.113.0/24 20 0 0", "None"),
    ("add 203.0.113.0/24 20 2 4294967296", "None"),
    ("add 203.0.113.0/24 020 2 0", "None"),
    ("add 203.0.113.0/24 +20 2 0", "None"),
    ("add 203.0.113.0/24 20 2", "None"),
    ("add 203.0.113.1/24 20 2 0", "None"),
    ("add 203.0.113.0/33 20 2 0", "None"),
    ("withdraw 203.0.113.1/24", "None"),
    ("withdraw 203.0.113.0", "None"),
    ("withdraw 203.0.113.00/24", "None"),
    ("withdraw 203.0.113/24", "None"),
    ("withdraw 203.0.256.0/24", "None"),
    ("withdraw 203.0.113.0/024", "None"),
];

fn says(alloc: Global, line: &str) -> Result<String, AllocError> {
    let command = read_command(alloc, line);
    match &command {
        Ok(found) => format!(in alloc; "{found:?}"),
        Err(_) => Err(AllocError),
    }
}

#[test]
fn each_command_is_read(rt: HostRuntime) -> Result<(), Fail> {
    for row in COMMANDS {
        let found = says(rt.alloc(), row.0)?;
        assert!(rt; found.as_str() == row.1, "{}: {found}", row.0);
    }
    Ok(())
}
