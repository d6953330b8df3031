//! `simulation play SCRIPT`: what happens at one router, played from a file, or line by line.
use crate::fault::{DONE, FOUND, MEMORY, OUTSIDE};
use scripts::{ScriptError, answer, play};
use std::io::{BufReader, Write};
use std::rt::Files;
use std::sync::Wait;
use whole_files::{ReadFault, read};

/// The script that words ask for, the first of which is the program's name.
pub fn script_in(words: &[String]) -> Option<&str> {
    let (command, script) = (words.get(1)?, words.get(2)?);
    let is_asked = words.len() == 3 && command.as_str() == "play";
    if is_asked && (script.as_str() == "-" || !script.as_str().starts_with('-')) {
        Some(script.as_str())
    } else {
        None
    }
}

// Prints this, and answers the status.
fn end<O: Write>(output: &mut O, text: &str, status: u8) -> u8 {
    match output.write_all(text.as_bytes()) {
        Ok(()) => status,
        Err(_) => OUTSIDE,
    }
}

// Prints why a script ended. Returns the status.
fn end_early<O: Write>(output: &mut O, error: ScriptError) -> u8 {
    let status = match error {
        ScriptError::Line(_) => FOUND,
        ScriptError::Input | ScriptError::Output => OUTSIDE,
        ScriptError::Memory => MEMORY,
    };
    match writeln!(output, "{error}") {
        Ok(()) => status,
        Err(_) => OUTSIDE,
    }
}

// Plays the text of a script.
fn play_text<R: AllocGlobal + Wait, O: Write>(rt: &R, text: &str, output: &mut O) -> u8 {
    match play(rt.alloc(), rt, text) {
        Ok(told) => end(output, told.as_str(), DONE),
        Err(error) => end_early(output, error),
    }
}

/// Plays the lines of the standard input as they come, and prints at once what each of them makes.
/// Returns the status, as `play_file` does.
pub fn play_input<R: Input + AllocGlobal + Wait, O: Write>(rt: &R, output: &mut O) -> u8 {
    let Ok(input) = BufReader::new(rt.alloc(), rt.reader()) else {
        return end(output, "out of memory\n", MEMORY);
    };
    match answer(rt.alloc(), rt, input, output) {
        Ok(()) => DONE,
        Err(error) => end_early(output, error),
    }
}

// Prints that a file can't be read. Returns the status.
fn end_unread<O: Write>(output: &mut O, path: &str) -> u8 {
    let _written = writeln!(output, "cannot read {path}");
    OUTSIDE
}

/// Plays the script of this file, and prints what goes out and what is shown. Returns the status: 1
/// if a line says nothing, 3 if the file or the output failed, 4 if memory was refused.
pub fn play_file<R: Files + AllocGlobal + Wait, O: Write>(
    rt: &R,
    path: &str,
    output: &mut O,
) -> u8 {
    match read(rt, path) {
        Ok(bytes) => match str::from_utf8(&bytes) {
            Ok(text) => play_text(rt, text, output),
            Err(_) => end_unread(output, path),
        },
        Err(ReadFault::Memory) => end(output, "out of memory\n", MEMORY),
        Err(ReadFault::Unreadable) => end_unread(output, path),
    }
}
