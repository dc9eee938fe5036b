//! The lives of two offices of one operator, joined where the later one was opened with what the
//! former one left.

ghost use Rattle.std.specs.Prelude.{◌≡◌, ◌≤◌, ◌↔◌, ◌∷◌, ◌++◌, IfErr, IfOk, IsTrue, MatchOption, OnOk, length, take};
ghost use Rattle.std.specs.Option.{option_copied};
ghost use Rattle.gi_office.specs.Joining.{Breaks, IsOther, Joins, joined_of, opening_of};
ghost use Rattle.gi_office.specs.Settling.{GoesOn};

use crate::comparing::is_same_fact;
use crate::entry::Entry;
use crate::life_fault::LifeFault;
use crate::settled::Settled;
use crate::stretch::Stretch;
use gi_desk::{Desk, Fact, Role};
use std::alloc::AllocError;

fn is_same(fact: Option<&Fact>, other: Option<&Fact>) -> bool
    ensures { IsTrue result ↔ (option_copied fact.entry ≡ option_copied other.entry) }
{
    match (fact, other) {
        (Some(fact), Some(other)) => is_same_fact(fact, other),
        (None, None) => true,
        _ => false,
    }
}

fn first_other<R: Role>(former: &Desk<R>, later: &Desk<R>, opening: u32) -> Option<u32>
    requires { opening ≤ length later.now.facts }
    ensures { MatchOption result (take opening later.now.facts ≡ take opening former.now.facts) (λ before. IsOther former.now.facts later.now.facts opening before) }
{
    for before in 0..opening {
        if !is_same(later.fact(before + 1), former.fact(before + 1)) {
            return Some(before);
        }
    }
    None
}

fn break_of<R: Role>(former: &Desk<R>, later: &Desk<R>, opening: u32) -> Option<u32>
    requires { opening ≤ length later.now.facts }
    ensures { MatchOption result (GoesOn former.now later.now.point (take opening later.now.facts)) (λ n. Breaks former.now later.now.point (take opening later.now.facts) n) }
{
    if later.point() != former.point() {
        return Some(0);
    }
    if let Some(before) = first_other(former, later, opening) {
        return Some(before + 1);
    }
    if opening < former.saved() {
        return Some(opening + 1);
    }
    None
}

/// Puts the later lists behind the former ones, and the stretch of the former one's last life between.
fn append(
    earlier: &mut Vec<Stretch>,
    last: Stretch,
    further: &mut Vec<Stretch>,
    trail: &mut Vec<Entry>,
    further_trail: &mut Vec<Entry>,
) -> Result<(), AllocError>
    ensures earlier { OnOk result (earlier.new.items ≡ earlier.old.items ++ last ∷ further.old.items) }
    ensures trail { OnOk result (trail.new.items ≡ trail.old.items ++ further_trail.old.items) }
{
    earlier.push(last)?;
    earlier.append(further)?;
    trail.append(further_trail)
}

fn joined<R: Role>(former: Settled<R>, later: Settled<R>) -> Result<Settled<R>, LifeFault>
    requires { GoesOn former.desk later.desk.point (opening_of later.lives) }
    ensures value { IfOk result (λ joined. joined ≡ joined_of former later) }
    ensures fault { IfErr result (λ fault. fault ≡ LifeFault.OutOfMemory) }
{
    let Settled {
        earlier,
        before,
        opening,
        trail,
        desk: ended,
    } = former;
    let Settled {
        earlier: further,
        before: further_before,
        opening: last,
        trail: further_trail,
        desk,
    } = later;
    let mut earlier = earlier;
    let mut trail = trail;
    let mut further = further;
    let mut further_trail = further_trail;
    let calls = trail.len() - before;
    let before = trail.len() + further_before;
    let appended = append(
        &mut earlier,
        Stretch { opening, calls },
        &mut further,
        &mut trail,
        &mut further_trail,
    );
    // (handed to drop, by one call: going out of scope here would be checked field by field on each way out)
    drop((ended, further, further_trail));
    let Ok(()) = appended else {
        drop((earlier, trail, desk));
        return Err(LifeFault::OutOfMemory);
    };
    Ok(Settled {
        earlier,
        before,
        opening: last,
        trail,
        desk,
    })
}

/// Joins the lives of an office with those of a later one of the same operator and point. `LifeBroken`
/// comes where the later one was not opened with first facts of the former one's end, or with fewer
/// than were saved there; then `OutOfMemory`. Both drop what was handed over.
pub fn join_lives<R: Role>(former: Settled<R>, later: Settled<R>) -> Result<Settled<R>, LifeFault>
    ensures { Joins former later result }
{
    let opening = later.first_opening();
    match break_of(former.desk(), later.desk(), opening) {
        Some(n) => {
            drop(former);
            drop(later);
            Err(LifeFault::LifeBroken(n))
        }
        None => joined(former, later),
    }
}
