//! New instances of self-originated LSAs.
ghost use Rattle.std.specs.Prelude.{◌≡◌, ◌≤◌, length, IfOk};
ghost use Rattle.std.specs.FinMap as finite;
ghost use Rattle.lsa.specs.Ranges.{BodyFits};
ghost use Rattle.lsa.specs.Text.{body_text};
ghost use Rattle.router.specs.Instances.{next_instance};

use crate::sequence::next_number;
use area::Lsdb;
use lsa::{Header, Lsa, LsaBody};
use std::alloc::{AllocError, Global};
use words::{E_BIT, Key};

/// The next instance of this key after the database copy, with this body: its age is 0, and its LS
/// type, length and checksum are computed from the body. `None` if the copy has MaxSequenceNumber.
///
/// # Errors
/// `AllocError` if an allocation is refused.
pub fn next_instance(
    alloc: Global,
    database: &Lsdb,
    key: &Key,
    body: LsaBody,
) -> Result<Option<Lsa>, AllocError>
    requires fits { BodyFits body }
    requires size { length (body_text body) ≤ 65515 }
    ensures { IfOk result (λ instance. instance
        ≡ next_instance key.now (finite.get database.now.present key.now) body) }
{
    let Some(sequence) = next_number(database.get(key)) else {
        return Ok(None);
    };
    let header = Header {
        age: 0,
        options: E_BIT,
        ls_type: 0,
        link_state_id: key.link_state_id,
        advertising_router: key.advertising_router,
        sequence,
        checksum: 0,
        length: 0,
    };
    let lsa = Lsa::new(alloc, header, body)?;
    Ok(Some(lsa))
}
