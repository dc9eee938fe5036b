use std::sync::Wait;

/// Who lets the calls of sessions through. It is asked before each call and told after it, both with
/// no lock held. Sessions, and the calls of each, count from 1.
pub trait Gate {
    ghost use Rattle.std.specs.Prelude.{◌≡◌, ℕ, false, true};

    /// For which call of which session it may answer true.
    ghost may_go: { Self → ℕ → ℕ → Type 0 };

    /// For which call of which session it may answer false.
    ghost may_end: { Self → ℕ → ℕ → Type 0 };

    /// Whether the call is made; false ends the session before it. It may wait first, also for what
    /// it is told of other sessions, which may never come where no thread can be started.
    fn hold<W: Wait>(&self, rt: &W, session: usize, call: usize) -> bool
        ensures go { result ≡ true → may_go self.now session call }
        ensures end { result ≡ false → may_end self.now session call };

    /// The call was made, and got its receipt or its fault.
    fn answered<W: Wait>(&self, rt: &W, session: usize, call: usize);
}
