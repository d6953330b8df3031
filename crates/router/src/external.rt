//! The AS-external-LSAs of this router (RFC 2328, section 12.4.4).
ghost use Rattle.std.specs.Prelude.{◌≡◌, ◌<◌, ◌^◌, IfOk};
ghost use Rattle.std.specs.FinMap as finite;
ghost use Rattle.event_rules.specs.Originations.{external_body, external_key};
ghost use Rattle.router.specs.Instances.{next_instance};

use crate::instance::next_instance;
use area::Lsdb;
use lsa::{ExternalLsa, Lsa, LsaBody};
use std::alloc::{AllocError, Global};
use words::{Address, External, RouterId, Sequence, external_key};

// The body for the destination, without a forwarding address.
fn external_body(alloc: Global, external: &External) -> LsaBody
    ensures { result ≡ external_body external.now }
{
    LsaBody::External(ExternalLsa {
        mask: external.prefix.mask(),
        kind: external.kind,
        metric: external.metric,
        forwarding: Address::UNSPECIFIED,
        tag: external.tag,
        tos: Sequence::from_vec(Vec::new(alloc)),
    })
}

/// The next instance of the self-originated AS-external-LSA for this destination after the database
/// copy (RFC 2328, section 12.4.4); `None` if the copy has MaxSequenceNumber: it is to be flushed
/// first.
///
/// # Errors
/// `AllocError` if an allocation is refused.
pub fn external_instance(
    alloc: Global,
    own: RouterId,
    external: &External,
    database: &Lsdb,
) -> Result<Option<Lsa>, AllocError>
    // A metric has 24 bits.
    requires { external.now.metric < 2 ^ 24 }
    ensures { let key = external_key own external.now.prefix in
        IfOk result (λ instance. instance
        ≡ next_instance key (finite.get database.now.present key) (external_body external.now)) }
{
    let key = external_key(own, external.prefix);
    let body = external_body(alloc, external);
    next_instance(alloc, database, &key, body)
}
