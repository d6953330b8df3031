//! By how much two sums of multiples of the same numbers may differ.
ghost use Rattle.std.specs.Prelude.{◌≡◌, ◌+◌, ◌*◌, ◌≤◌, ℕ, IfSome, Some};
ghost use Rattle.machine.specs.declared.state.Content.{Content};
ghost use Rattle.machine.specs.declared.state.State.{State as Machine};
ghost use Rattle.kinds.specs.Meaning.{KindHolds, RegistersHold, number_of_content, number_in};
ghost use Rattle.verifier.specs.Dots.{dot};

use crate::line::Gap;
use crate::range::{greatest, least, listed};
use absdom::Domain;
use kinds::Kind;

/// The gap between two multiples of the number in a register of this kind.
pub fn gap_at<D: Domain>(left: u64, right: u64, kind: Kind<D>) -> Option<Gap>
    ensures holds { IfSome result (λ gap. (content : Content) → KindHolds D.contains kind content
        → left * number_of_content content + gap.saved ≤ right * number_of_content content
        + gap.needed) }
    ensures same { left ≡ right → result ≡ Some (record { saved = 0; needed = 0 }) }
{
    if left == right {
        return Some(Gap {
            saved: 0,
            needed: 0,
        });
    }
    if left <= right {
        let low = least(kind);
        let saved = ((right - left) as u128).checked_mul(low as u128)?;
        return Some(Gap { saved, needed: 0 });
    }
    let high = greatest(kind)?;
    let needed = ((left - right) as u128).checked_mul(high as u128)?;
    Some(Gap { saved: 0, needed })
}

/// The gap between two sums, register by register.
pub fn gap_of<D: Domain>(lefts: [u64; 10], rights: [u64; 10], kinds: &[Kind<D>]) -> Option<Gap>
    ensures holds { IfSome result (λ gap. (start : Machine)
        → RegistersHold D.contains kinds.now start → dot 10 lefts (number_in start) + gap.saved
        ≤ dot 10 rights (number_in start) + gap.needed) }
    ensures same { lefts ≡ rights → result ≡ Some (record { saved = 0; needed = 0 }) }
{
    let mut saved = 0u128;
    let mut needed = 0u128;
    for index in 0..10usize {
        let gap = gap_at(lefts[index], rights[index], listed(kinds, index))?;
        saved = saved.checked_add(gap.saved)?;
        needed = needed.checked_add(gap.needed)?;
    }
    Some(Gap { saved, needed })
}
