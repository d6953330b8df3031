//! `simulation`: networks of many routers in memory. It plays scenarios, measures how long they
//! take to settle and how often packets go round meanwhile, and searches for histories that end
//! with Full neighbors whose databases differ. It also plays what happens at one router, from a
//! file or line by line.
#![tactic(auto)]

mod arguments;
mod fault;
mod json;
mod names;
mod numbers;
mod page;
mod play;
mod program;
mod reading;
mod requests;
mod telling;
mod work;

use std::process::ExitCode;
use std::{env, io};

/// Hands the arguments and the standard streams to the program, and ends with its status.
fn main(rt: HostRuntime) -> ExitCode {
    let mut output = io::writer(&rt);
    let mut errors = rt.stderr();
    let status = match arguments_of(&rt) {
        Ok(words) => match play::script_in(&words) {
            Some("-") => play::play_input(&rt, &mut output),
            Some(script) => play::play_file(&rt, script, &mut output),
            None => program::program(rt.alloc(), &rt, &words, &mut output, &mut errors),
        },
        Err(error) => program::end_without_words(rt.alloc(), &error, &mut output, &mut errors),
    };
    ExitCode::from(status)
}

fn arguments_of(rt: &HostRuntime) -> io::Result<Vec<String>> {
    Ok(env::args(rt)?.collect(rt.alloc())?)
}
