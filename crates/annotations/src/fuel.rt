//! How many turns are counted, and what is answered once they are used up.
ghost use Rattle.std.specs.Prelude.{◌≡◌};
ghost use Rattle.annotations.specs.CountedCode.{answer_without_turns};

use isa::Hook;

/// How many turns loops without a rank may take, if that is told, and what a program answers that
/// has used them up.
#[derive(Clone, Copy)]
pub struct Fuel {
    pub turns: Option<u32>,
    pub answer: u32,
}

/// What a program for the hook answers that has used up its turns: the number that is asked for,
/// 2^31 - 1 at most, or at `price` the metric that withholds the destination (RFC 2328, appendix B,
/// LSInfinity), and elsewhere 0.
pub fn answer_without_turns(hook: Hook, asked: Option<u32>) -> u32
    ensures { result ≡ answer_without_turns hook asked }
{
    match (asked, hook) {
        (Some(answer), _) => answer.min(0x7fff_ffff),
        (None, Hook::Price) => 0x00ff_ffff,
        (None, _) => 0,
    }
}
