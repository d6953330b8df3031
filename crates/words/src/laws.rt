//! The values of the constants.
ghost use Rattle.std.specs.Prelude.{◌≡◌};
ghost use Rattle.words.specs.Constants.{initial_sequence_number, max_sequence_number};

use crate::address::Address;
use crate::hops::Hops;
use crate::identifiers::{AreaId, RouterId};
use crate::sequence_number::SequenceNumber;

/// The least and the greatest sequence number: InitialSequenceNumber and MaxSequenceNumber (RFC
/// 2328, section 12.1.6).
pub fn sequence_numbers() -> (SequenceNumber, SequenceNumber)
    ensures initial { result.0 ≡ initial_sequence_number }
    ensures max { result.1 ≡ max_sequence_number }
{
    (SequenceNumber::INITIAL, SequenceNumber::MAX)
}

/// The identifiers that are 0.0.0.0: the backbone (RFC 2328, section C.2), no router and no
/// address.
pub fn unspecified() -> (AreaId, RouterId, Address)
    ensures backbone { result.0 ≡ 0 }
    ensures router { result.1 ≡ 0 }
    ensures address { result.2 ≡ 0 }
{
    (
        AreaId::BACKBONE,
        RouterId::UNSPECIFIED,
        Address::UNSPECIFIED,
    )
}

/// The empty set of interfaces.
pub fn no_interface() -> Hops
    ensures { result ≡ 0 }
{
    Hops::NONE
}
