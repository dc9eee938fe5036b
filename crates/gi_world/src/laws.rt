//! What holds of all worlds. This function does nothing; its clause is the law.

ghost use Rattle.gi_world.specs.Laws.{HistoriesAreHeld, StaysSound, StepsAgree};

/// From any world on, what the desks hold is what the steps and their answers tell.
pub fn histories_are_held()
    ensures { HistoriesAreHeld }
{}

/// A sound world stays so, whatever step is made.
pub fn stays_sound()
    ensures { StaysSound }
{}

/// No delivery to a sound world disagrees with what the other side saved.
pub fn steps_agree()
    ensures { StepsAgree }
{}
