//! The conjunction and disjunction of two tests, as functions.
//!
//! In a clause about a whole neighbor, the prover visits all of its parts in each branch of `&&`
//! and `||`, and gives up. A call has no branches.
ghost use Rattle.std.specs.Prelude.{◌≡◌, ◌&&◌, ◌||◌};

pub fn both(first: bool, second: bool) -> bool
    ensures { result ≡ (first && second) }
{
    first && second
}

pub fn either(first: bool, second: bool) -> bool
    ensures { result ≡ (first || second) }
{
    first || second
}
