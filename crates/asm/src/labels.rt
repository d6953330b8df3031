//! What the labels of a text name.
ghost use Rattle.std.specs.Prelude.{◌≡◌, ◌≤◌, Some, None, length, IfOk, OnOk, if◌then◌else◌};
ghost use Rattle.std.specs.Str.{bytes_eq};
ghost use Rattle.asm.specs.Words.{Word};
ghost use Rattle.asm.specs.LineViews.{views};
ghost use Rattle.asm.specs.Assembling.{gives_label, slots_in, place_from};
ghost use Rattle.asm.specs.Labels.{place_in, ◌or_else◌};

use crate::line::AssemblyLine;
use indexmap::IndexMap;
use std::alloc::{AllocError, Global};

/// A label: the first line that defines it, counted from 0, and the slot that it names.
#[derive(Clone, Copy)]
pub(crate) struct Place {
    pub line: usize,
    pub slot: usize,
}

/// The number of slots that the line's instruction takes; 0 if it has none.
fn slots_in(line: &Option<AssemblyLine>) -> usize
    ensures value { result ≡ slots_in line.now }
    ensures most { result ≤ 2 }
{
    match *line {
        Some(AssemblyLine::LoadNumber { .. } | AssemblyLine::LoadMap { .. }) => 2,
        Some(
            AssemblyLine::Arithmetic { .. }
            | AssemblyLine::Negate { .. }
            | AssemblyLine::SignExtend { .. }
            | AssemblyLine::Reorder { .. }
            | AssemblyLine::Jump(_)
            | AssemblyLine::LongJump(_)
            | AssemblyLine::Branch { .. }
            | AssemblyLine::Call(_)
            | AssemblyLine::Exit
            | AssemblyLine::Load { .. }
            | AssemblyLine::Store { .. },
        ) => 1,
        _ => 0,
    }
}

fn gives_label(line: &Option<AssemblyLine>) -> bool
    ensures { result ≡ gives_label line.now }
{
    matches!(*line, Some(AssemblyLine::Label))
}

/// Records where a label is defined, unless an earlier line defines it.
fn note_place<'a>(
    places: &mut IndexMap<&'a str, Place>,
    name: &'a str,
    place: Place,
) -> Result<(), AllocError>
    ensures { OnOk result ((word : Word) → place_in places.new word ≡ place_in places.old word
        or_else (if bytes_eq name.now word then Some place else None)) }
{
    if !places.contains_key(name) {
        places.insert(name, place)?;
    }
    Ok(())
}

/// Where each label is first defined in the text of these lines; `names[i]` is the label's name in
/// line i.
pub(crate) fn places_of<'a>(
    alloc: Global,
    lines: &[Option<AssemblyLine>],
    names: &[&'a str],
) -> Result<IndexMap<&'a str, Place>, AllocError>
    requires { length lines.now ≡ length names.now }
    ensures { IfOk result (λ places. (word : Word) → place_in places word ≡ place_from 0 0 lines.now
        (views names.now) word) }
{
    let mut places = IndexMap::new(alloc);
    let mut slot = 0;
    for at in 0..lines.len() {
        if gives_label(&lines[at]) {
            note_place(&mut places, names[at], Place { line: at, slot })?;
        }
        slot += slots_in(&lines[at]);
    }
    Ok(places)
}

/// Where the label with this name is first defined, if it is.
pub(crate) fn place_of(places: &IndexMap<&str, Place>, name: &str) -> Option<Place>
    ensures { result ≡ place_in places.now name.now }
{
    places.get(name).copied()
}
