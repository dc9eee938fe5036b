//! What is taken over by a closure that is only lent.

/// What can be taken out once.
pub(crate) trait Once {
    ghost use Rattle.std.specs.Prelude.{◌≡◌, Option, Some, is_some, true};

    type Item;

    /// What is left in it.
    ghost left: { Self → Option Self.Item };

    fn once(&mut self) -> Self::Item
        requires { is_some (left self.old) ≡ true }
        ensures { left self.old ≡ Some result };
}

impl<X> Once for Option<X> {
    type Item = X;

    ghost left = { λ it. it };

    fn once(&mut self) -> X {
        self.take().unwrap()
    }
}
