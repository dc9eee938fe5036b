//! Both offices taken apart and set against each other, and the last lines that tell of it.

ghost use Rattle.std.specs.Prelude.{◌≡◌, IfOk, string_bytes};
ghost use Rattle.gi_serving.specs.Closing.{AreLastLines, IsClosed, IsReconciled, counted_line, end_of as end_for, reconciled_line as reconciled_text, settled_line as settled_text, settling_lines as settling_text};

use crate::serve_fault::ServeFault;
use gi_desk::Role;
use gi_initiator::Initiating;
use gi_matcher::Matching;
use gi_office::{Office, Seat, Settled, Unreconciled, Unsettled, reconcile};
use gi_reports::counts_line;
use std::alloc::{AllocError, Global};
use std::sync::ledger::Ledger;

/// The last lines, and how it ended.
#[derive(Drop)]
pub struct Closed {
    pub text: String,
    pub end: Result<(), ServeFault>,
}

fn counted<R: Role>(
    alloc: Global,
    settled: &Result<Settled<R>, Unsettled>,
) -> Result<String, AllocError>
    ensures { IfOk result (λ line. string_bytes line ≡ counted_line R.SIDE settled.now) }
{
    match settled {
        Ok(settled) => counts_line(alloc, settled.desk()),
        Err(_) => Ok(String::new(alloc)),
    }
}

fn settled_line<R: Role>(
    alloc: Global,
    settled: &Result<Settled<R>, Unsettled>,
) -> Result<String, AllocError>
    ensures { IfOk result (λ line. string_bytes line ≡ settled_text R.SIDE settled.now) }
{
    let side = R::SIDE;
    match settled {
        Ok(_) => format!(in alloc; "settled {side} ok\n"),
        Err(fault) => format!(in alloc; "settled {side} {fault}\n"),
    }
}

fn settling_lines(
    alloc: Global,
    initiating: &Result<Settled<Initiating>, Unsettled>,
    matching: &Result<Settled<Matching>, Unsettled>,
) -> Result<String, AllocError>
    ensures { IfOk result (λ lines. string_bytes lines ≡ settling_text initiating.now matching.now) }
{
    let first = counted(alloc, initiating)?;
    let second = counted(alloc, matching)?;
    let third = settled_line(alloc, initiating)?;
    let fourth = settled_line(alloc, matching)?;
    format!(in alloc; "{first}{second}{third}{fourth}")
}

fn reconciled_line(alloc: Global, answer: Result<(), Unreconciled>) -> Result<String, AllocError>
    ensures { IfOk result (λ line. string_bytes line ≡ reconciled_text answer) }
{
    match answer {
        Ok(()) => format!(in alloc; "reconciled ok\n"),
        Err(fault) => format!(in alloc; "reconciled {fault}\n"),
    }
}

fn end_of(answer: Result<(), Unreconciled>) -> Result<(), ServeFault>
    ensures { result ≡ end_for answer }
{
    match answer {
        Ok(()) => Ok(()),
        Err(fault) => Err(ServeFault::Unreconciled(fault)),
    }
}

fn reconciled(
    alloc: Global,
    lines: String,
    initiating: &Settled<Initiating>,
    matching: &Settled<Matching>,
) -> Result<Closed, AllocError>
    ensures { IfOk result (λ closed. IsReconciled (string_bytes lines) initiating.now matching.now (string_bytes closed.text) closed.end) }
{
    // (what a settled office promises of its lives and its desk is known once the desk is asked for)
    let _ = initiating.desk();
    let _ = matching.desk();
    let answer = reconcile(initiating, matching);
    let line = reconciled_line(alloc, answer)?;
    let text = format!(in alloc; "{lines}{line}")?;
    Ok(Closed {
        text,
        end: end_of(answer),
    })
}

fn last_lines(
    alloc: Global,
    initiating: &Result<Settled<Initiating>, Unsettled>,
    matching: &Result<Settled<Matching>, Unsettled>,
) -> Result<Closed, AllocError>
    ensures { IfOk result (λ closed. AreLastLines initiating.now matching.now (string_bytes closed.text) closed.end) }
{
    let lines = settling_lines(alloc, initiating, matching)?;
    match (initiating, matching) {
        (Ok(initiating), Ok(matching)) => reconciled(alloc, lines, initiating, matching),
        (Err(fault), _) => Ok(Closed {
            text: lines,
            end: Err(ServeFault::Unsettled(*fault)),
        }),
        (Ok(_), Err(fault)) => Ok(Closed {
            text: lines,
            end: Err(ServeFault::Unsettled(*fault)),
        }),
    }
}

fn last_lines_of(
    alloc: Global,
    initiating: Result<Settled<Initiating>, Unsettled>,
    matching: Result<Settled<Matching>, Unsettled>,
) -> Result<Closed, AllocError>
    ensures { IfOk result (λ closed. AreLastLines initiating matching (string_bytes closed.text) closed.end) }
{
    let closed = last_lines(alloc, &initiating, &matching);
    // (handed to drop, by one call: going out of scope here would be checked field by field on each way out)
    drop((initiating, matching));
    closed
}

/// Hands all seats back to both offices and sets these against each other. The lines say how many facts
/// each desk is left with, whether each office settled, and whether the two are reconciled; where one did
/// not settle its count and the last line are missing. Only memory is refused.
pub fn close_both<L: Ledger, K: Ledger>(
    alloc: Global,
    initiating: Office<Initiating, L>,
    seats: Vec<Seat<L>>,
    matching: Office<Matching, K>,
    peer_seats: Vec<Seat<K>>,
) -> Result<Closed, AllocError>
    ensures { IfOk result (λ closed. IsClosed L.parts initiating.seats seats.items K.parts matching.seats peer_seats.items (string_bytes closed.text) closed.end) }
{
    let initiating = initiating.settle(seats);
    let matching = matching.settle(peer_seats);
    last_lines_of(alloc, initiating, matching)
}
