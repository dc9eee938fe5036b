/// Who is told how far a run is. Nothing of a run depends on it.
pub trait Watch {
    ghost use Rattle.std.specs.Prelude.{◌≡◌, ℕ};

    /// How many lines it was last told are made.
    ghost told: { Self → ℕ };

    /// How many lines it was last told the script has.
    ghost whole: { Self → ℕ };

    /// So many of all lines of the script are made.
    fn made(&mut self, lines: usize, all: usize)
        ensures lines { told self.new ≡ lines }
        ensures all { whole self.new ≡ all };

    /// The run is over, or was cut off.
    fn ended(&mut self)
        ensures lines { told self.new ≡ told self.old }
        ensures all { whole self.new ≡ whole self.old };
}
