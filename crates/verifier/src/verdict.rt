//! The verifier's answer about an object file.
ghost use Rattle.std.specs.Prelude.{IfOk, IfErr};
ghost use Rattle.verifier.specs.Verdicts.{Accepts, Refuses};

use crate::accepted::Accepted;
use crate::checking::verify;
use crate::error::VerifyError;
use absdom::Pair;
use interval::Interval;
use isa::decode;
use knownbits::KnownBits;
use std::alloc::Global;

/// Verifies the program of the object file in `bytes`, with intervals and known bits in parallel:
/// at the object's hook, from its entry rank, with its statements.
///
/// # Errors
/// If the bytes are not an object file, its code doesn't decode, or the verifier refuses it, with
/// the slot and the rule; and, in each variant, if an allocation is refused.
pub fn verify_object(alloc: Global, bytes: &[u8]) -> Result<Accepted, VerifyError>
    ensures accepts { IfOk result (λ accepted. Accepts bytes.now accepted) }
    ensures refuses { IfErr result (Refuses bytes.now) }
{
    let object = object::read(alloc, bytes)?;
    let code = decode(alloc, object.code())?;
    let accepted = verify::<Pair<Interval, KnownBits>>(
        alloc,
        object.hook(),
        code,
        object.entry_rank(),
        object.statements(),
    )?;
    Ok(accepted)
}
