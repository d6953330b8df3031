//! Candidates that are calculated anew.
ghost use Rattle.std.specs.Prelude.{◌≡◌, IfOk, IfSome};
ghost use Rattle.area_routes.specs.Kept.{AreInnerBy};
ghost use Rattle.candidates.specs.Externals.{AreExternals};
ghost use Rattle.kept_routes.specs.Kept.{IsWalkOf};
ghost use Rattle.routes.specs.Candidates.{AreCandidates};
ghost use Rattle.routes.specs.Contents.{Contents, contents_at};

use area::Area;
use candidates::{Calculated, ExternalAdvertisement, externals_at};
use kept_routes::Routes;
use std::alloc::{AllocError, Global};
use words::Second;

// What the AS-external-LSAs advertise at the moment.
fn externals_now(
    alloc: Global,
    area: &Area,
    moment: Second,
) -> Result<Vec<ExternalAdvertisement>, AllocError>
    ensures { IfOk result (λ advertised. AreExternals
        (contents_at moment area.now.present.database) advertised.items) }
{
    let db = area.database();
    let advertised = externals_at(alloc, db, moment)?;
    Ok(advertised)
}

// The candidates by this walk, given what AS-external-LSAs advertise.
fn calculate_by(
    alloc: Global,
    area: &Area,
    walk: &Routes,
    moment: Second,
    externals: &[ExternalAdvertisement],
) -> Result<Calculated, AllocError>
    requires walk { IsWalkOf (contents_at moment area.now.present.database) walk.now }
    requires externals { AreExternals (contents_at moment area.now.present.database) externals.now }
    ensures routes { IfOk result (λ made. AreCandidates
        (contents_at moment area.now.present.database)
        walk.now.root made.routes.items) }
    ensures inner { IfOk result (λ made. AreInnerBy (contents_at moment area.now.present.database)
        walk.now.root walk.now made.inner) }
{
    let db = area.database();
    let made = walk.calculate(alloc, db, moment, externals)?;
    Ok(made)
}

/// Candidates, with what AS-external-LSAs advertise unless that was kept.
#[derive(Drop)]
pub struct Made {
    pub calculated: Calculated,
    pub advertised: Option<Vec<ExternalAdvertisement>>,
}

/// The candidates by this walk. `kept` is what AS-external-LSAs advertise, if that is known.
pub fn calculated(
    alloc: Global,
    area: &Area,
    walk: &Routes,
    moment: Second,
    kept: &Option<Vec<ExternalAdvertisement>>,
) -> Result<Made, AllocError>
    requires walk { IsWalkOf (contents_at moment area.now.present.database) walk.now }
    requires externals { IfSome kept.now (λ advertised. AreExternals
        (contents_at moment area.now.present.database) advertised.items) }
    ensures routes { IfOk result (λ made. AreCandidates
        (contents_at moment area.now.present.database)
        walk.now.root made.calculated.routes.items) }
    ensures inner { IfOk result (λ made. AreInnerBy (contents_at moment area.now.present.database)
        walk.now.root walk.now made.calculated.inner) }
    ensures externals { IfOk result (λ made. IfSome made.advertised (λ advertised. AreExternals
        (contents_at moment area.now.present.database) advertised.items)) }
{
    match kept {
        Some(advertised) => {
            let calculated = calculate_by(alloc, area, walk, moment, advertised)?;
            Ok(Made {
                calculated,
                advertised: None,
            })
        }
        None => {
            let advertised = externals_now(alloc, area, moment)?;
            let calculated = calculate_by(alloc, area, walk, moment, &advertised)?;
            Ok(Made {
                calculated,
                advertised: Some(advertised),
            })
        }
    }
}

/// What AS-external-LSAs advertise: the list that was kept, or else the one that was made now.
pub fn kept_or(
    kept: Option<Vec<ExternalAdvertisement>>,
    made: Option<Vec<ExternalAdvertisement>>,
) -> Option<Vec<ExternalAdvertisement>>
    ensures { (contents : Contents) → IfSome kept
        (λ advertised. AreExternals contents advertised.items)
        → IfSome made (λ advertised. AreExternals contents advertised.items)
        → IfSome result (λ advertised. AreExternals contents advertised.items) }
{
    match kept {
        Some(advertised) => Some(advertised),
        None => made,
    }
}
