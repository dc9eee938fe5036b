use crate::difference::Difference;
use std::fmt;

/// What is found of a cycle at two desks.
#[derive(Clone, Copy)]
pub(crate) enum Finding {
    /// Both have confirmed it, so much in each direction: in kWh, over all rows and hours.
    Agreed { im: u64, mi: u64 },
    /// Nothing differs, and the matching side alone has confirmed it: it confirms first.
    OpenAtInitiating,
    /// Nothing differs, and neither side has confirmed it.
    OpenAtBoth,
    /// A side met another table than the one that the other side wrote.
    Differs(Difference),
}

impl fmt::Display for Finding {
    ghost use Rattle.std.specs.Prelude.{Some};
    ghost use Rattle.gi_audit.specs.FindingText.{finding_text};

    ghost output = { λ finding. Some (finding_text finding) };

    fn fmt<W: fmt::Write>(&self, f: &mut fmt::Formatter<W>) -> fmt::Result {
        match self {
            Finding::Agreed { im, mi } => write!(f, "agreed IM {im} MI {mi}"),
            Finding::OpenAtInitiating => f.write_str("open at I"),
            Finding::OpenAtBoth => f.write_str("open at both"),
            Finding::Differs(difference) => write!(f, "differs {difference}"),
        }
    }
}

impl Finding {
    ghost use Rattle.std.specs.Prelude.{◌≡◌};
    ghost use Rattle.gi_audit.specs.Finding.{is_agreed, is_difference};

    /// Whether a table differs.
    pub fn is_difference(&self) -> bool
        ensures { result ≡ is_difference self.now }
    {
        matches!(self, Finding::Differs(_))
    }

    /// Whether both have confirmed the cycle, and no table differs.
    pub fn is_agreed(&self) -> bool
        ensures { result ≡ is_agreed self.now }
    {
        matches!(self, Finding::Agreed { .. })
    }
}
