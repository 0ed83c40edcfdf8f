ghost use Rattle.std.specs.Prelude.{◌≡◌};

use crate::refusal::Refusal;

/// A refusal, and what was handed over, which comes back with it.
#[derive(Drop)]
pub struct Rejected<T> {
    pub refusal: Refusal,
    pub given: T,
}

/// Lets go of what came back.
impl<T: Drop> From<Rejected<T>> for Refusal {
    ghost from_gives = { λ e r. r ≡ e.refusal };

    fn from(e: Rejected<T>) -> Refusal {
        e.refusal
    }
}
