ghost use Rattle.std.specs.Prelude.{◌≡◌, Some};
ghost use Rattle.refusal.specs.Words.{refusal_text};

use crate::layer::Layer;
use crate::reason::Reason;
use std::error::Error;
use std::fmt;

/// A call was refused, and left everything as it was.
#[derive(Clone, Copy, Debug, PartialEq, Eq)]
pub struct Refusal {
    pub reason: Reason,
    pub layer: Layer,
    /// What it tells is fixed with the reason.
    pub place: usize,
    /// The messages that were sent between the sites until the refusal.
    pub messages: usize,
}

impl Refusal {
    /// A refusal before any message was sent.
    pub fn new(reason: Reason, layer: Layer, place: usize) -> Refusal
        ensures { result ≡ record { reason = reason; layer = layer; place = place; messages = 0 } }
    {
        Refusal {
            reason,
            layer,
            place,
            messages: 0,
        }
    }
}

/// The reason in words, and the numbers.
impl fmt::Display for Refusal {
    ghost output = { λ e. Some (refusal_text e) };

    fn fmt<W: fmt::Write>(&self, f: &mut fmt::Formatter<W>) -> fmt::Result {
        let reason = self.reason;
        let number = reason.number();
        let layer = self.layer.number();
        let place = self.place;
        write!(
            f,
            "{reason} (number {number}, layer {layer}, place {place})"
        )
    }
}

impl Error for Refusal {}
