//! The numbers of the facts that a quantity comes from. Each is found by a walk over the facts.

ghost use Rattle.std.specs.Prelude.{◌≡◌, ◌≤◌, ◌-◌, if◌then◌else◌, false, length, take};
ghost use Rattle.std.specs.Option.{option_map_or};
ghost use Rattle.gi_desk.specs.Queries.{fact_at};
ghost use Rattle.gi_explanations.specs.Numbers.{first_number, last_number, numbers as numbers_of};
ghost use Rattle.gi_explanations.specs.Wanted.{is_wanted};

use crate::question::Question;
use crate::wanted::Wanted;
use gi_desk::{Desk, Role};

/// The numbers of facts, from 1; 0 where there is no such fact.
#[derive(Clone, Copy)]
pub(crate) struct Numbers {
    pub nomination: u32,
    pub contract: u32,
    pub notice: u32,
    pub closing: Option<u32>,
    pub meeting: Option<u32>,
}

fn is_at<R: Role>(desk: &Desk<R>, wanted: &Wanted, n: u32) -> bool
    ensures { result ≡ option_map_or (is_wanted wanted.now) (fact_at desk.now.facts n) false }
{
    match desk.fact(n) {
        Some(fact) => wanted.is(fact),
        None => false,
    }
}

fn first<R: Role>(desk: &Desk<R>, wanted: &Wanted) -> Option<u32>
    ensures { result ≡ first_number (is_wanted wanted.now) desk.now.facts }
{
    for before in 0..desk.len() {
        if is_at(desk, wanted, before + 1) {
            return Some(before + 1);
        }
    }
    None
}

fn next(number: u32, is: bool, other: u32) -> u32
    ensures { result ≡ (if is then other else number) }
{
    if is { other } else { number }
}

fn last<R: Role>(desk: &Desk<R>, wanted: &Wanted, end: u32) -> u32
    requires { end ≤ length desk.now.facts }
    ensures { result ≡ last_number (is_wanted wanted.now) (take end desk.now.facts) }
{
    let mut number = 0;
    for before in 0..end {
        number = next(number, is_at(desk, wanted, before + 1), before + 1);
    }
    number
}

/// How many facts stand before the closing: all, where there is none.
fn count_before(closing: Option<u32>, all: u32) -> u32
    ensures { result ≡ option_map_or (λ n. n - 1) closing all }
{
    match closing {
        Some(n) => n.saturating_sub(1),
        None => all,
    }
}

impl Numbers {
    /// The numbers of the facts that the quantity comes from.
    pub(crate) fn of<R: Role>(desk: &Desk<R>, question: &Question) -> Numbers
        ensures { result ≡ numbers_of R.SIDE desk.now.facts question.now }
    {
        let (day, direction) = (question.id.day, question.direction);
        let own = question.pair.at(R::SIDE);
        let closing = first(desk, &Wanted::Closing(question.id));
        let end = count_before(closing, desk.len());
        let nomination = last(desk, &Wanted::Nomination(own, day), end);
        let contract = last(desk, &Wanted::Contract(own, day, direction), end);
        let notice = last(desk, &Wanted::Notice(day, direction, question.hour), end);
        let meeting = first(desk, &Wanted::Meeting(question.id));
        Numbers {
            nomination,
            contract,
            notice,
            closing,
            meeting,
        }
    }
}
