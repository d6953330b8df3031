//! The packet of a question.

ghost use Rattle.std.specs.Prelude.{◌≡◌, option_map};
ghost use Rattle.hex.specs.declared.error.FromHexError.TheVariants.{OutOfMemory};
ghost use Rattle.hooktool_trials.specs.Words.{IsNoPacket, IsPacket, OrElse, ReadsOrLacks};

use crate::requests::PacketSource;
use crate::values::NotRead;
use crate::wrong_words::WrongWord;
use hex::FromHexError;
use std::alloc::Global;

// Why no packet is read, for this error.
fn without_packet(error: FromHexError) -> NotRead
    ensures { error ≡ OutOfMemory → result ≡ NotRead.OutOfMemory }
{
    match error {
        FromHexError::OutOfMemory => NotRead::OutOfMemory,
        _ => NotRead::Meaningless(WrongWord::Part),
    }
}

/// The packet that an option's word is: a file's, or bytes in hex; none if it isn't given.
pub(crate) fn packet_in<'a>(
    alloc: Global,
    word: Option<&'a str>,
) -> Result<PacketSource<'a>, NotRead>
    ensures { ReadsOrLacks (λ packet. OrElse (option_map (λ w. w.now) word.entry)
        (IsNoPacket packet) (λ w. IsPacket w packet)) result }
{
    let Some(word) = word else {
        return Ok(PacketSource::Bytes(Vec::new(alloc)));
    };
    if let Some(path) = word.strip_prefix('@') {
        return Ok(PacketSource::File(path));
    }
    match hex::decode(alloc, word) {
        Ok(bytes) => Ok(PacketSource::Bytes(bytes)),
        Err(error) => Err(without_packet(error)),
    }
}
