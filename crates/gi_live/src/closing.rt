//! The closings of cycles that are due.

ghost use Rattle.std.specs.Prelude.{◌≡◌, ◌<◌, ◌^◌, IfErr, IfOk, OnOk};
ghost use Rattle.gi_serving.specs.Ending.{place_of};
ghost use Rattle.gi_live.specs.Closing.{CloseDue, IsClosing, LeavesClosings, WritesClosings};
ghost use Rattle.gi_live.specs.Coming.{IsAskingFault};
ghost use Rattle.gi_live.specs.declared.came.Came.TheVariants as cames;

use crate::asking::{add, fault_of};
use crate::came::Came;
use crate::live_fault::LiveFault;
use crate::outlet::Outlet;
use crate::running::save_and_tell;
use gi_desk::Role;
use gi_office::{Office, Receipt, Seat};
use gi_pairs::CycleId;
use gi_processing::Rule;
use gi_serving::Turns;
use std::alloc::Global;
use std::sync::Wait;
use std::sync::ledger::Ledger;

fn closed(id: &CycleId, receipt: Receipt) -> Came
    ensures { result ≡ cames.Closed id.now receipt.reply }
{
    Came::Closed {
        id: *id,
        reply: receipt.reply,
    }
}

/// Closes the cycle from the seat.
fn close<R: Role, L: Ledger, W: Wait>(
    rt: &W,
    office: &Office<R, L>,
    seat: Seat<L>,
    id: &CycleId,
) -> (Seat<L>, Result<Came, LiveFault>)
    ensures place { place_of result.0 ≡ place_of seat }
    ensures came { IfOk result.1 (λ came. IsClosing R.SIDE seat id.now came result.0) }
    ensures fault { IfErr result.1 IsAskingFault }
{
    let (seat, answered) = office.close_cycle(rt, seat, *id, Rule::Two);
    match answered {
        Ok(receipt) => (seat, Ok(closed(id, receipt))),
        Err(fault) => (seat, Err(fault_of(fault))),
    }
}

/// Closes the cycles in order, and gives how many there are and what came of each; the first fault ends it.
fn close_all<R: Role, L: Ledger, W: Wait>(
    rt: &W,
    alloc: Global,
    office: &Office<R, L>,
    seat: Seat<L>,
    ids: &[CycleId],
) -> (Seat<L>, Result<Vec<Came>, LiveFault>)
    ensures place { place_of result.0 ≡ place_of seat }
    ensures came { IfOk result.1 (λ cames. CloseDue R.SIDE seat ids.now cames.items result.0) }
    ensures fault { IfErr result.1 IsAskingFault }
{
    let mut seat = seat;
    let mut cames = Vec::new(alloc);
    let due = Came::Due {
        cycles: ids.len() as u64,
    };
    if let Err(fault) = add(&mut cames, Ok(due)) {
        drop(cames);
        return (seat, Err(fault));
    }
    for id in ids {
        let (back, came) = close(rt, office, seat, id);
        seat = back;
        if let Err(fault) = add(&mut cames, came) {
            drop(cames);
            return (seat, Err(fault));
        }
    }
    (seat, Ok(cames))
}

/// Closes the cycles in order, saves what that records, and writes how many there are, what came of each, all of the line of this number, and
/// what was let out. Of a fault of the saving what may be told is written before it.
pub(crate) fn close_cycles<R: Role, L: Ledger, B: Turns, W: Wait, O: Outlet>(
    rt: &W,
    alloc: Global,
    office: &Office<R, L>,
    book: &mut B,
    seat: Seat<L>,
    saved: u32,
    line: u64,
    ids: &[CycleId],
    output: &mut O,
) -> (Seat<L>, Result<(), LiveFault>)
    requires { line < 2 ^ 63 }
    ensures place { place_of result.0 ≡ place_of seat }
    ensures closes { OnOk result.1 (WritesClosings R.SIDE seat saved line ids.now (O.told output.old) (O.told output.new) result.0) }
    ensures leaves { IfErr result.1 (LeavesClosings R.SIDE seat saved line ids.now (O.told output.old) (O.told output.new)) }
{
    let (seat, cames) = close_all(rt, alloc, office, seat, ids);
    match cames {
        Ok(cames) => {
            let (seat, _, end) = save_and_tell(
                rt, alloc, office, book, seat, saved, line, cames, output,
            );
            (seat, end)
        }
        Err(fault) => (seat, Err(fault)),
    }
}
