//! What a turn passes before it takes the lock for its event.
ghost use Rattle.std.specs.Prelude.{ℕ};

/// A gate that lets each turn pass.
#[derive(Drop)]
pub struct Open {}

impl Gate for Open {
    fn pass(&mut self, _port: u16) {}
}

/// What each turn passes once, after the programs were asked (for which it may have taken the lock,
/// to copy what they are asked about) and before it takes the lock to give its event. Tests
/// stop or watch a turn there; `routerd` has [`Open`] alone.
///
/// `passes` (the gate before, the port, the gate after) is a relation that each implementation
/// defines. A turn is generic over the gate: it can establish `passes` only by passing it, so its
/// contract shows whether it did.
pub trait Gate {
    ghost passes: { Self → ℕ → Self → Type 0 } = { λ before port after. Unit {0} };

    /// Lets the port with this number pass, perhaps after a wait.
    fn pass(&mut self, port: u16)
        ensures { passes self.old port self.new };
}
