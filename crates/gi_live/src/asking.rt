//! What a line comes to.

ghost use Rattle.std.specs.Prelude.{◌≡◌, ◌<◌, ◌++◌, ◌∷◌, [], ℕ, List, IfErr, IfOk, IfSome, IsOk, None, OnOk, length, true};
ghost use Rattle.gi_serving.specs.Ending.{place_of};
ghost use Rattle.gi_serving.specs.Runs.{is_made};
ghost use Rattle.gi_live.specs.Coming.{ComeAll, IsAskingFault, IsCome, IsMade, IsNamed, IsNoCall, named_beside, portfolio_of_call};
ghost use Rattle.gi_live.specs.Lines.{IsEnded};

use crate::came::{Came, UnreadLine};
use crate::input::InputLine;
use crate::live_fault::LiveFault;
use crate::query::read_query;
use gi_desk::{Answer, Call, Role};
use gi_office::{Note, Office, OfficeFault, Receipt, Seat};
use gi_pairs::Code;
use gi_script::{LineFault, read_request};
use gi_serving::called;
use gi_simulation::portfolio_of;
use gi_text::LINE_FEED;
use std::alloc::{AllocError, Global};
use std::sync::Wait;
use std::sync::ledger::Ledger;

/// The longest line that is read, in bytes with its line feed: that of the longest message, and room for the words before it.
pub const MOST_LINE: usize = 16_777_472;

fn named(alloc: Global, call: &Call) -> Result<Option<Code>, AllocError>
    ensures { IfOk result (λ code. code ≡ portfolio_of_call call.now) }
{
    match call {
        Call::Submit(body) => portfolio_of(alloc, body.as_slice()),
        _ => Ok(None),
    }
}

fn beside(alloc: Global, note: &Note) -> Result<Option<Code>, AllocError>
    ensures { IfOk result (λ code. code ≡ named_beside note.now.call note.now.reply.answer) }
{
    match note.reply.answer {
        Answer::Refused(_) => named(alloc, &note.call),
        _ => Ok(None),
    }
}

/// What came of a call that is the last one of these notes.
fn came_of(alloc: Global, notes: &[Note], receipt: Receipt) -> Result<Came, LiveFault>
    requires { 0 < length notes.now }
    ensures named { IfOk result (IsNamed notes.now receipt.reply) }
    ensures fault { IfErr result IsAskingFault }
{
    match beside(alloc, &notes[notes.len() - 1]) {
        Ok(portfolio) => Ok(Came::Answered {
            reply: receipt.reply,
            portfolio,
        }),
        Err(_) => {
            drop(receipt);
            Err(LiveFault::OutOfMemory)
        }
    }
}

pub(crate) fn fault_of(fault: OfficeFault) -> LiveFault
    ensures { IsAskingFault result }
{
    match fault {
        OfficeFault::SeatFull => LiveFault::SeatFull,
        OfficeFault::OutOfMemory => LiveFault::OutOfMemory,
    }
}

/// Makes the call from the seat.
fn made<R: Role, L: Ledger, W: Wait>(
    rt: &W,
    alloc: Global,
    office: &Office<R, L>,
    seat: Seat<L>,
    call: Call,
) -> (Seat<L>, Result<Came, LiveFault>)
    requires made { is_made call ≡ true }
    ensures place { place_of result.0 ≡ place_of seat }
    ensures came { IfOk result.1 (λ came. IsMade R.SIDE seat call came result.0) }
    ensures fault { IfErr result.1 IsAskingFault }
{
    let (seat, answered) = called(rt, office, seat, call);
    match answered {
        Some(Ok(receipt)) => {
            let came = came_of(alloc, seat.notes(), receipt);
            (seat, came)
        }
        Some(Err(fault)) => (seat, Err(fault_of(fault))),
        None => unreachable!(),
    }
}

/// The text of a line that is ended.
pub(crate) fn text_of(line: &[u8]) -> Option<&[u8]>
    ensures ended { IfSome result (λ text. IsEnded line.now text.now) }
    ensures cut { result ≡ None → (text : List ℕ) → ¬ IsEnded line.now text }
{
    match line.split_last() {
        Some((&LINE_FEED, text)) => Some(text),
        _ => None,
    }
}

/// Why a line is not read that asks for no call.
fn no_call(text: &[u8]) -> UnreadLine
    ensures { IsNoCall text.now result }
{
    match read_query(text) {
        Some(_) => UnreadLine::Halted,
        None => UnreadLine::Unreadable,
    }
}

/// Makes the call that a line asks for; a query asks for none, and is one of an office that is halted. `OutOfMemory`, and
/// `SeatFull` where the seat is full.
fn ask<R: Role, L: Ledger, W: Wait>(
    rt: &W,
    alloc: Global,
    office: &Office<R, L>,
    seat: Seat<L>,
    line: &InputLine,
) -> (Seat<L>, Result<Came, LiveFault>)
    ensures place { place_of result.0 ≡ place_of seat }
    ensures came { IfOk result.1 (λ came. IsCome R.SIDE seat line.now came result.0) }
    ensures fault { IfErr result.1 IsAskingFault }
{
    let bytes = line.as_slice();
    if bytes.len() > MOST_LINE {
        return (seat, Ok(Came::Unread(UnreadLine::TooLarge)));
    }
    let Some(text) = text_of(bytes) else {
        return (seat, Ok(Came::Unread(UnreadLine::Unreadable)));
    };
    match read_request(alloc, text) {
        Ok(call) => made(rt, alloc, office, seat, call),
        Err(LineFault::Unreadable) => (seat, Ok(Came::Unread(no_call(text)))),
        Err(LineFault::OutOfMemory) => (seat, Err(LiveFault::OutOfMemory)),
    }
}

/// Puts what came of a line behind what came of those before it.
pub(crate) fn add(cames: &mut Vec<Came>, came: Result<Came, LiveFault>) -> Result<(), LiveFault>
    ensures added { OnOk result (IfOk came (λ came. cames.new.items ≡ cames.old.items ++ came ∷ [])) }
    ensures ok { OnOk result (IsOk came) }
    ensures fault { IfErr came IsAskingFault → IfErr result IsAskingFault }
{
    let came = match came {
        Ok(came) => came,
        Err(fault) => return Err(fault),
    };
    match cames.push(came) {
        Ok(()) => Ok(()),
        Err(_) => Err(LiveFault::OutOfMemory),
    }
}

/// Makes the calls that the lines ask for, in order, and gives what came of each; the first fault ends it.
pub(crate) fn ask_all<R: Role, L: Ledger, W: Wait>(
    rt: &W,
    alloc: Global,
    office: &Office<R, L>,
    seat: Seat<L>,
    lines: &[InputLine],
) -> (Seat<L>, Result<Vec<Came>, LiveFault>)
    ensures place { place_of result.0 ≡ place_of seat }
    ensures came { IfOk result.1 (λ cames. ComeAll R.SIDE seat lines.now cames.items result.0) }
    ensures fault { IfErr result.1 IsAskingFault }
{
    let mut seat = seat;
    let mut cames = Vec::new(alloc);
    for line in lines {
        let (back, came) = ask(rt, alloc, office, seat, line);
        seat = back;
        if let Err(fault) = add(&mut cames, came) {
            drop(cames);
            return (seat, Err(fault));
        }
    }
    (seat, Ok(cames))
}
