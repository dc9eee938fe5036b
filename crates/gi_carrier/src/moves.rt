use std::fmt;

/// What a carrier does with the message that waits first.
#[derive(Clone, Copy, Debug, PartialEq, Eq)]
pub enum Move {
    /// It is taken and given.
    Pass,
    /// It is taken and lost.
    Drop,
    /// A copy is given, and it still waits first.
    Repeat,
    /// It is put last, and nothing is given.
    Hold,
}

impl fmt::Display for Move {
    ghost use Rattle.std.specs.Prelude.{Some};
    ghost use Rattle.gi_carrier.specs.Moves.{move_text};

    ghost output = { λ next. Some (move_text next) };

    fn fmt<W: fmt::Write>(&self, f: &mut fmt::Formatter<W>) -> fmt::Result {
        f.write_str(match self {
            Move::Pass => "pass",
            Move::Drop => "drop",
            Move::Repeat => "repeat",
            Move::Hold => "hold",
        })
    }
}
