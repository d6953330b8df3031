//! What is known at a slot.
use kinds::AbstractState;

/// What is known at a slot. If it isn't live, no run of the current segment reaches the slot, and
/// the state says nothing.
#[derive(Drop)]
pub struct Known<D> {
    pub state: AbstractState<D>,
    pub is_live: bool,
}
