ghost use Rattle.std.specs.Prelude.{Some};
ghost use Rattle.edges.specs.Outcomes.{outcome_text};

use refusal::Refusal;
use std::fmt;

// What came of a call: the number of the refusal, or 0, and its place.
#[derive(Drop)]
pub(crate) struct Told(pub(crate) Result<(), Refusal>);

impl fmt::Display for Told {
    ghost output = { λ t. Some (outcome_text t.0) };

    fn fmt<W: fmt::Write>(&self, f: &mut fmt::Formatter<W>) -> fmt::Result {
        match self.0 {
            Ok(()) => f.write_str("0 0"),
            Err(refusal) => {
                let number = refusal.reason.number();
                let place = refusal.place;
                write!(f, "{number} {place}")
            }
        }
    }
}
