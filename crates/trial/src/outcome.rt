use refusal::Refusal;
use std::fmt;

// What came of a call.
#[derive(Drop)]
pub(crate) struct Outcome(pub(crate) Result<(), Refusal>);

impl fmt::Display for Outcome {
    fn fmt<W: fmt::Write>(&self, f: &mut fmt::Formatter<W>) -> fmt::Result {
        match self.0 {
            Ok(()) => f.write_str("done"),
            Err(refusal) => write!(f, "refused, {refusal}"),
        }
    }
}
