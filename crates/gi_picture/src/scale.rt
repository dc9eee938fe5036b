//! The scale of an axis.

ghost use Rattle.std.specs.Prelude.{◌≡◌, ◌<◌, ◌≤◌, ◌+◌, ◌*◌, true};
ghost use Rattle.gi_picture.specs.Scale.{at_least_one as at_least_one_of, is_enough as is_enough_of, largest, scale as scale_of, step as step_for, step_from as step_from_of, step_of_unit as step_of_unit_of, steps_for as steps_for_of};

/// A step of an axis in kWh/h, and how many stand above and below its zero line.
#[derive(Clone, Copy)]
pub(crate) struct Scale {
    pub step: u64,
    pub above: u64,
    pub below: u64,
}

#[tactic(auto, unfolding(crate::specs::Scale::steps_for))]
fn steps_for(size: u64, step: u64) -> u64
    requires { 0 < step }
    ensures value { result ≡ steps_for_of size step }
    ensures within { result ≤ size }
{
    if size == 0 {
        return 0;
    }
    (size - 1) / step + 1
}

fn is_enough(above: u64, below: u64, most: u64, step: u64) -> bool
    requires { 0 < step }
    ensures { result ≡ is_enough_of above below most step }
{
    let (up, down) = (steps_for(above, step), steps_for(below, step));
    up <= most && down <= most - up
}

#[tactic(auto, unfolding(crate::specs::Scale::step_of_unit))]
fn step_of_unit(above: u64, below: u64, most: u64, unit: u64) -> u64
    requires some { 0 < unit }
    requires within { unit ≤ largest 0 }
    requires enough { is_enough_of above below most (5 * unit) ≡ true }
    ensures value { result ≡ step_of_unit_of above below most unit }
    ensures some { 0 < result }
    ensures enough { steps_for_of above result + steps_for_of below result ≤ most }
{
    if is_enough(above, below, most, unit) {
        return unit;
    }
    if is_enough(above, below, most, 2 * unit) {
        return 2 * unit;
    }
    5 * unit
}

fn step_from(more: u8, unit: u64, above: u64, below: u64, most: u64) -> u64
    requires some { 0 < unit }
    requires within { unit ≤ largest more }
    requires two { 2 ≤ most }
    ensures value { result ≡ step_from_of more unit above below most }
    ensures some { 0 < result }
    ensures enough { steps_for_of above result + steps_for_of below result ≤ most }
{
    if more == 0 {
        return above.max(below).max(1);
    }
    if is_enough(above, below, most, 5 * unit) {
        return step_of_unit(above, below, most, unit);
    }
    step_from(more - 1, 10 * unit, above, below, most)
}

#[tactic(auto, unfolding(crate::specs::Scale::step))]
fn step(above: u64, below: u64, most: u64) -> u64
    requires two { 2 ≤ most }
    ensures value { result ≡ step_for above below most }
    ensures some { 0 < result }
    ensures enough { steps_for_of above result + steps_for_of below result ≤ most }
{
    step_from(18, 1, above, below, most)
}

/// The scale of an axis on which `above` and `below` have room, of as many steps as `most`.
pub(crate) fn axis_scale(above: u64, below: u64, most: u64) -> Scale
    requires two { 2 ≤ most }
    ensures value { result ≡ scale_of above below most }
    ensures some { 0 < result.step }
    ensures ticks { 1 ≤ result.above + result.below }
    ensures few { result.above + result.below ≤ most }
{
    let step = step(above, below, most);
    let (up, down) = (steps_for(above, step), steps_for(below, step));
    let above = if up == 0 && down == 0 { 1 } else { up };
    Scale {
        step,
        above,
        below: down,
    }
}
