//! Figures of what can't be timed from outside, printed on demand: `bench run`, and likewise with
//! the other names. Without arguments it prints nothing. `tools/figures` times what the programs
//! do.
#![tactic(auto)]

mod figures;
mod hook_speed;
mod maps_speed;
mod programs;
mod run_speed;
mod turn_speed;

use std::env;
use std::process::ExitCode;
use std::rt::Clock;
use std::sync::Wait;
use std::thread::Threads;

const USAGE: &str = "usage: bench run | hooks | maps | turn";

// Tells why nothing is printed. Returns the status.
fn refuse<R: Eprint>(rt: &R, why: &str, status: u8) -> u8 {
    let _told = eprintln!(rt; "{why}");
    status
}

fn print_usage<R: Print>(rt: &R) -> u8 {
    match println!(rt; "{USAGE}") {
        Ok(()) => 0,
        Err(_) => 1,
    }
}

// Prints the figures with this name, or how the program is used. Returns the status.
fn print<R: Clock + Print + Eprint + AllocGlobal + Threads + Wait + Sync>(
    rt: &R,
    name: &str,
) -> u8 {
    let printed = match name {
        "run" => run_speed::print(rt),
        "hooks" => hook_speed::print(rt),
        "maps" => maps_speed::print(rt),
        "turn" => turn_speed::print(rt),
        "--help" => return print_usage(rt),
        _ => return refuse(rt, USAGE, 2),
    };
    match printed {
        Ok(()) => 0,
        Err(why) => refuse(rt, why.text(), 1),
    }
}

fn main(rt: HostRuntime) -> ExitCode {
    let Ok(mut words) = env::args(&rt) else {
        return ExitCode::from(1);
    };
    match words.nth(1) {
        Some(name) => ExitCode::from(print(&rt, &name)),
        None => ExitCode::SUCCESS,
    }
}
