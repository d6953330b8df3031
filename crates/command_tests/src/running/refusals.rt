//! Why a router doesn't run, in words.
use daemon::StartError;
use std::alloc::Global;
use std::process::Abort;

// A fault, its text and its status.
type Row = (StartError, &'static str, u8);

const ROWS: &[Row] = &[
    (StartError::Configuration(3), "config refusal line 3", 1),
    (StartError::Bind(7001), "cannot bind 7001", 3),
    (StartError::Hooks(3), "hook refusal 3", 1),
    (StartError::Memory, "out of memory", 4),
];

fn tells(alloc: Global, row: &Row) -> bool {
    match format!(in alloc; "{}", row.0) {
        Ok(told) => told.as_str() == row.1 && row.0.status() == row.2,
        Err(_) => false,
    }
}

// An allocation may be refused once.
#[test]
fn a_refusal_has_its_text_and_status(rt: HostRuntime) {
    for row in ROWS {
        assert!(rt;
            tells(rt.alloc(), row) || tells(rt.alloc(), row),
            "{}",
            row.1
        );
    }
}
