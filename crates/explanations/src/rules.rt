//! The rules by name, and what an author can do about them.
//!
//! Each text is an arm of a `match`: a proof writes out a table with all of its texts for each
//! state of a function that names it.

use verifier::Rule;

/// The name of the rule, as in docs/reference/VERIFIER.md.
pub(crate) fn name_of(rule: Rule) -> &'static str {
    match rule {
        Rule::Target => "Target",
        Rule::FallsOff => "FallsOff",
        Rule::Unreached => "Unreached",
        Rule::Unstated => "Unstated",
        Rule::Empty => "Empty",
        Rule::Kind => "Kind",
        Rule::Bounds => "Bounds",
        Rule::Align => "Align",
        Rule::Helper => "Helper",
        Rule::Argument => "Argument",
        Rule::NotWithin => "NotWithin",
        Rule::Rank => "Rank",
        Rule::Budget => "Budget",
        Rule::ExitKind => "ExitKind",
        Rule::Frame => "Frame",
        Rule::Memory => "Memory",
    }
}

/// What an author can do if the rule is broken.
pub(crate) fn hint_of(rule: Rule) -> &'static str {
    match rule {
        Rule::Target => "name the slot by a label, and jump to the label",
        Rule::FallsOff => "end the code by exit, or by a goto",
        Rule::Unreached =>
            "state the slot that a jump comes to, or take out code that nothing comes to",
        Rule::Unstated => "state the slot: hooktool annotate finds what to state",
        Rule::Empty =>
            "fill it on every way that leads here; if it is filled, state it; r1 to r5 are empty \
                behind a call, so keep what you need in r6 to r9",
        Rule::Kind =>
            "counters grow by helper 1 alone, and cells (map 1) are stored into; into the context \
                and the stack point by the distance in the load or store",
        Rule::Bounds =>
            "mask the index (&= 255 for counters, &= 63 for cells) before it is shifted by 3, or \
                test it and use the register that was tested",
        Rule::Align =>
            "shift an index by 3, or mask an offset by a multiple of 8, and load or store u64",
        Rule::Helper => "call a helper that the hook has",
        Rule::Argument =>
            "mask or test the register that is passed: a cell that was tested and is loaded again \
                is any number again",
        Rule::NotWithin =>
            "widen the statement, or test or mask the register before; leave out a register that \
                nothing behind the statement reads",
        Rule::Rank =>
            "let a register fall with each turn, by a single number, and be named in the rank of \
                the loop's statement; or count turns (hooktool annotate --fuel N)",
        Rule::Budget => "lower the entry rank, or shorten the code or the loop's range",
        Rule::ExitKind => "answer a number: load what the pointer points to",
        Rule::Frame => "copy r10 into another register, and change that",
        Rule::Memory => "",
    }
}

/// The text for the broken rule, and what is allowed; a `{}` stands for a slot. Empty if the text
/// depends on the instruction.
pub(crate) fn words_of(rule: Rule) -> &'static str {
    match rule {
        Rule::Target =>
            "  it jumps to slot {}, where no instruction begins\n  allowed: a slot of the code \
                where one begins\n",
        Rule::FallsOff =>
            "  behind it the code ends\n  allowed: an exit or a goto as the last instruction\n",
        Rule::Unreached =>
            "  slot {} has no statement, and nothing comes from the slot before\n  allowed: a \
                slot that is stated\n",
        Rule::Unstated =>
            "  it jumps to slot {}, which has no statement\n  allowed: a slot that is stated\n",
        Rule::Empty =>
            "  allowed: what is filled on each way that leads here, and is stated where a \
                statement is on the way\n",
        Rule::Align => "  allowed: in a map 8 bytes at a multiple of 8\n",
        Rule::ExitKind => "  allowed: r0 a number\n",
        Rule::Frame => "  r10, the end of the stack, is written\n  allowed: a copy of it\n",
        Rule::Kind
        | Rule::Bounds
        | Rule::Helper
        | Rule::Argument
        | Rule::NotWithin
        | Rule::Rank
        | Rule::Budget
        | Rule::Memory => "",
    }
}
