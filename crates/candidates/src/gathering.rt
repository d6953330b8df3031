//! Offers in a list, as they are found.
ghost use Rattle.std.specs.Prelude.{◌≡◌, Some, OnOk};
ghost use Rattle.candidates.specs.Gathering.{Adds, IsOnly};
ghost use Rattle.routes.specs.Offers.{IsPrefix};

use routes::Offer;
use std::alloc::AllocError;
use words::{Address, Key, Prefix};

/// Adds an offer, if there is one.
///
/// # Errors
/// `AllocError` if an allocation is refused.
pub fn push_offer(offers: &mut Vec<Offer>, offer: Option<Offer>) -> Result<(), AllocError>
    ensures { OnOk result (Adds offers.old.items offers.new.items (λ o. offer ≡ Some o)) }
{
    if let Some(offer) = offer {
        offers.push(offer)?;
    }
    Ok(())
}

/// The network of an address under a mask; `None` if a zero bit of the mask is above a one.
pub fn network_under(address: Address, mask: Address) -> Option<Prefix>
    ensures { IsOnly (IsPrefix address mask) result }
{
    Prefix::under_mask(address, mask)
}

/// The network of a key's Link State ID under a mask.
pub fn network_of(key: &Key, mask: Address) -> Option<Prefix>
    ensures { IsOnly (IsPrefix key.now.link_state_id mask) result }
{
    network_under(Address::new(key.link_state_id.number()), mask)
}
