//! Words that have no meaning, and what is told of them.
//!
//! The texts stand here alone: a proof writes out a text for each state of a function that names
//! it.

/// Which word has no meaning.
#[derive(Clone, Copy)]
pub(crate) enum WrongWord {
    /// One that isn't there; the command line takes no words without it.
    Missing,
    Hook,
    SectionHook,
    Fuel,
    FuelAnswer,
    Times,
    Prefix,
    Type,
    Kind,
    Metric,
    Tag,
    Cost,
    Distance,
    Moment,
    Interface,
    NextHops,
    /// A packet, a row or a setting.
    Part,
    /// Those of a line of a test.
    Line,
}

/// What is told of it.
pub(crate) fn text_of(wrong: WrongWord) -> &'static str {
    match wrong {
        WrongWord::Missing => "a word is missing",
        WrongWord::Hook => "HOOK is none of count, tag, price and veto",
        WrongWord::SectionHook => "--hook is none of count, tag, price and veto",
        WrongWord::Fuel => "--fuel is no number from 1 to 999999",
        WrongWord::FuelAnswer => "--fuel-answer is no number from 0 to 2147483647",
        WrongWord::Times => "--times is no number from 1 to 1000",
        WrongWord::Prefix => "--prefix is no network A.B.C.D/L whose other bits are 0",
        WrongWord::Type => "--type is neither 1 nor 2",
        WrongWord::Kind => "--kind is none of intra, inter, ext1 and ext2",
        WrongWord::Metric => "--metric is no number up to 4294967295",
        WrongWord::Tag => "--tag is no number up to 4294967295",
        WrongWord::Cost => "--cost is no number up to 4294967295",
        WrongWord::Distance => "--distance is no number up to 4294967295",
        WrongWord::Moment => "--moment is no number below 2^62",
        WrongWord::Interface => "--interface is no number up to 63",
        WrongWord::NextHops =>
            "--next-hops is no number from 1 to 64, or with --interface above 64",
        WrongWord::Part =>
            "--packet is neither hex digits, two a byte, nor @FILE, or --row isn't A.B.C.D/L=COST, \
                --counter isn't K=N with K up to 255 and N up to 16777215, or --cell isn't J=N \
                with J up to 63",
        WrongWord::Line =>
            "a line is empty, a comment behind #, program OBJECT, ask OPTIONS, packets CAPTURE \
                interface I (up to 63), or what is expected: metric N (below 16777215), withheld, \
                tag N, installed, not installed, answer N, counter K N (K up to 255), cell J N (J \
                up to 63)",
    }
}
