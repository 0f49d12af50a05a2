//! What comes back where a store cannot be made.
ghost use Rattle.std.specs.Prelude.{◌≡◌};

use protocol::refusal::Refusal;

/// A making that was turned down: the ground, and what was handed in.
#[derive(Debug, Drop)]
pub struct Rejected<T> {
    pub refusal: Refusal,
    pub given: T,
}

/// The ground alone. What was handed in is let go.
impl<T: Drop> From<Rejected<T>> for Refusal {
    ghost from_gives = { λ rejected refusal. refusal ≡ rejected.refusal };

    fn from(rejected: Rejected<T>) -> Refusal {
        rejected.refusal
    }
}
