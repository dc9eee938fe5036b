use gi_pairs::Side;
use std::fmt;

/// What of the other side is against a table that a side met.
#[derive(Clone, Copy)]
pub(crate) enum Against {
    /// The other side has not closed the cycle.
    NotClosed,
    /// It has closed the cycle, and not met a table of it, so it has written none either.
    NotMet,
    /// It has written another table, which the fact of this number froze.
    Closed(u32),
}

impl fmt::Display for Against {
    ghost use Rattle.std.specs.Prelude.{Some};
    ghost use Rattle.gi_audit.specs.FindingText.{against_text};

    ghost output = { λ what. Some (against_text what) };

    fn fmt<W: fmt::Write>(&self, f: &mut fmt::Formatter<W>) -> fmt::Result {
        match self {
            Against::NotClosed => f.write_str("not closed"),
            Against::NotMet => f.write_str("not met"),
            Against::Closed(n) => write!(f, "closed {n}"),
        }
    }
}

/// A table that a side met of a cycle, and that the other side has not written of it.
#[derive(Clone, Copy)]
pub(crate) struct Difference {
    /// Who met it.
    pub side: Side,
    /// The number of the fact that met it, from 1.
    pub met: u32,
    /// What of the other side is against it.
    pub against: Against,
}

impl fmt::Display for Difference {
    ghost use Rattle.std.specs.Prelude.{Some};
    ghost use Rattle.gi_audit.specs.FindingText.{difference_text};

    ghost output = { λ difference. Some (difference_text difference) };

    fn fmt<W: fmt::Write>(&self, f: &mut fmt::Formatter<W>) -> fmt::Result {
        let (side, other) = (self.side, self.side.other());
        let (met, against) = (self.met, self.against);
        write!(f, "{side} met {met} {other} {against}")
    }
}
