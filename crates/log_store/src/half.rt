ghost use Rattle.std.specs.Prelude.{◌≡◌, Some};
ghost use Rattle.log_store.specs.Logs.{other, half_text};

use std::fmt;

/// One half of the memory of a log.
#[derive(Clone, Copy, Debug, PartialEq, Eq)]
pub enum Half {
    First,
    Second,
}

impl Half {
    pub(crate) fn other(self) -> Half
        ensures { result ≡ other self }
    {
        match self {
            Half::First => Half::Second,
            Half::Second => Half::First,
        }
    }
}

/// The half in words.
impl fmt::Display for Half {
    ghost output = { λ h. Some (half_text h) };

    fn fmt<W: fmt::Write>(&self, f: &mut fmt::Formatter<W>) -> fmt::Result {
        f.write_str(match self {
            Half::First => "first",
            Half::Second => "second",
        })
    }
}
