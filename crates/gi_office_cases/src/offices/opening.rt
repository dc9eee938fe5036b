//! How an office is opened.

ghost use Rattle.std.specs.Prelude.{◌≡◌, IfOk, false, length};

use gi_calls::Answer;
use gi_day::Calendar;
use gi_desk::{Desk, Fact, ReplayFault, Role};
use gi_office::{Office, Seat};
use gi_pairs::Code;
use std::alloc::Global;
use std::marker::PhantomData;
use std::sync::ledger::{Blank, Ledger};

/// The ledger of an office that is not open yet.
#[derive(Drop)]
pub struct Unopened<L: Ledger> {
    blank: Blank,
    of: PhantomData<L>,
    ghost name: { blank.name ≡ L.name },
    ghost whole: { blank.parts ≡ L.parts },
    ghost parts: { blank.parts ≡ 16 },
}

impl<L: Ledger> Unopened<L> {
    pub fn of(blank: Blank) -> Unopened<L>
        requires name { blank.name ≡ L.name }
        requires whole { blank.parts ≡ L.parts }
        requires parts { blank.parts ≡ 16 }
    {
        Unopened {
            blank,
            of: PhantomData,
        }
    }
}

/// A desk of these facts.
fn new_desk<R: Role>(alloc: Global, point: Code, facts: Vec<Fact>) -> Result<Desk<R>, ReplayFault>
    ensures { IfOk result (λ desk. (desk.saved ≡ length desk.facts) × (desk.halted ≡ false)) }
{
    let Ok(calendar) = Calendar::new() else {
        return Err(ReplayFault::OutOfMemory);
    };
    Desk::replay(alloc, calendar, point, facts)
}

/// The office of such a desk with so many seats. Where there is none, adds why.
pub fn opened<R: Role, L: Ledger>(
    alloc: Global,
    unopened: Unopened<L>,
    point: Code,
    facts: Vec<Fact>,
    seats: usize,
    text: &mut Answer,
) -> Option<(Office<R, L>, Vec<Seat<L>>)> {
    let desk = match new_desk(alloc, point, facts) {
        Ok(desk) => desk,
        Err(fault) => {
            text.show(fault);
            return None;
        }
    };
    let Unopened { blank, of: _ } = unopened;
    match Office::new(alloc, blank, desk, seats) {
        Ok(opened) => Some(opened),
        Err(fault) => {
            text.show(fault);
            None
        }
    }
}
