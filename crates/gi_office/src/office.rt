ghost use Rattle.std.specs.Prelude.{◌≡◌, ◌≢◌, ◌≤◌, ◌↔◌, IfOk, IfSome, None, false, length};
ghost use Rattle.gi_office.specs.Entering.{IsAnswered};
ghost use Rattle.gi_office.specs.Limits.{most_seats};
ghost use Rattle.gi_office.specs.Opening.{new_seats};
ghost use Rattle.gi_office.specs.Settling.{SettlesKept};
ghost use Rattle.gi_office.specs.Waiting.{IsWaited, number_in};
ghost use Rattle.gi_desk.specs.declared.call.Call.TheVariants as calls;

mod saving;
mod serving;

use crate::held::Held;
use crate::office_fault::OfficeFault;
use crate::open_fault::OpenFault;
use crate::receipt::Receipt;
use crate::seat::Seat;
use crate::settled::Settled;
use crate::unsettled::Unsettled;
use crate::waited::Waited;
use gi_desk::{Answer, Body, Call, Desk, Role};
use gi_pairs::CycleId;
use gi_processing::{Contract, Notice, Rule};
use std::alloc::Global;
use std::marker::Model;
use std::sync::ledger::{Blank, Ledger};
use std::sync::{Condvar, Mutex, Wait};

/// An operator's desk that several threads call, each from a seat of its own.
#[derive(Drop)]
pub struct Office<R: Role, L: Ledger> {
    held: Mutex<Held<R, L>>,
    /// Is told of each fact that is saved, and of a halt.
    changed: Condvar,
    /// How many seats there are, known without the lock.
    seats: u8,
}

impl<R: Role, L: Ledger> Model for Office<R, L> {
    ghost use Rattle.gi_office.specs.Keeping.{OfficeState};

    ghost Value = { OfficeState };

    ghost view = { λ o. record { seats = o.seats } };
}

fn number_of(answer: &Answer) -> Option<u32>
    ensures { result ≡ number_in answer.now }
{
    match answer {
        Answer::Recorded { n } | Answer::Repeat { n } => Some(*n),
        _ => None,
    }
}

/// `reveal_invariant` comes first: of what a lock gives nothing is known before.
fn asked<R: Role, L: Ledger>(
    held: &mut Held<R, L>,
    seat: &mut Seat<L>,
    call: Call,
) -> Result<Receipt, OfficeFault>
    ensures { IsAnswered R.SIDE seat.old call result seat.new }
{
    held.reveal_invariant();
    held.enter(seat, call)
}

/// As in `asked`.
fn became_of<R: Role, L: Ledger>(held: &Held<R, L>, n: u32) -> Option<Waited>
    ensures fact { IfSome result (IsWaited R.SIDE n) }
    ensures known { IfSome result (λ waited. waited ≢ Waited.NoFact) }
{
    held.reveal_invariant();
    held.waited(n)
}

impl<R: Role, L: Ledger> Office<R, L> {
    /// Opens an office over a desk that is not halted and whose facts are all saved, with so many
    /// seats, from 1 to 16, else `SeatCount`; then `OutOfMemory`.
    pub fn new(
        alloc: Global,
        blank: Blank,
        desk: Desk<R>,
        seats: usize,
    ) -> Result<(Office<R, L>, Vec<Seat<L>>), OpenFault>
        requires name { blank.name ≡ L.name }
        requires whole { blank.parts ≡ L.parts }
        requires parts { blank.parts ≡ 16 }
        requires saved { desk.saved ≡ length desk.facts }
        requires runs { desk.halted ≡ false }
        ensures refused { (result ≡ Err OpenFault.SeatCount) ↔ ¬ ((1 ≤ seats) × (seats ≤ most_seats)) }
        ensures office { IfOk result (λ office. office.0.seats ≡ seats) }
        ensures seats { IfOk result (λ office. office.1.items ≡ new_seats seats) }
    {
        let (held, places) = Held::open(alloc, blank, desk, seats)?;
        let office = Office {
            held: Mutex::new(held),
            changed: Condvar::new(),
            seats: seats as u8,
        };
        Ok((office, places))
    }

    fn ask_from<W: Wait>(
        &self,
        rt: &W,
        seat: &mut Seat<L>,
        call: Call,
    ) -> Result<Receipt, OfficeFault>
        ensures { IsAnswered R.SIDE seat.old call result seat.new }
    {
        asked(&mut *self.held.lock(rt), seat, call)
    }

    /// A call after which a fact may be saved or the desk halted: all that wait for that are woken.
    fn ask_and_wake<W: Wait>(
        &self,
        rt: &W,
        seat: &mut Seat<L>,
        call: Call,
    ) -> Result<Receipt, OfficeFault>
        ensures { IsAnswered R.SIDE seat.old call result seat.new }
    {
        let answer = self.ask_from(rt, seat, call);
        self.changed.notify_all();
        answer
    }

    fn ask<W: Wait>(
        &self,
        rt: &W,
        seat: Seat<L>,
        call: Call,
    ) -> (Seat<L>, Result<Receipt, OfficeFault>)
        ensures { IsAnswered R.SIDE seat call result.1 result.0 }
    {
        let mut seat = seat;
        let answer = self.ask_from(rt, &mut seat, call);
        (seat, answer)
    }

    /// Takes a shipper's nomination. `SeatFull`, exactly where the seat is full, and `OutOfMemory`
    /// leave office and seat as they were. The refusals of the other six calls are the same.
    pub fn submit<W: Wait>(
        &self,
        rt: &W,
        seat: Seat<L>,
        body: Body,
    ) -> (Seat<L>, Result<Receipt, OfficeFault>)
        ensures { IsAnswered R.SIDE seat (calls.Submit body) result.1 result.0 }
    {
        self.ask(rt, seat, Call::Submit(body))
    }

    /// Takes the peer's message.
    pub fn deliver<W: Wait>(
        &self,
        rt: &W,
        seat: Seat<L>,
        body: Body,
    ) -> (Seat<L>, Result<Receipt, OfficeFault>)
        ensures { IsAnswered R.SIDE seat (calls.Deliver body) result.1 result.0 }
    {
        self.ask(rt, seat, Call::Deliver(body))
    }

    /// Closes a cycle by a rule.
    pub fn close_cycle<W: Wait>(
        &self,
        rt: &W,
        seat: Seat<L>,
        id: CycleId,
        rule: Rule,
    ) -> (Seat<L>, Result<Receipt, OfficeFault>)
        ensures { IsAnswered R.SIDE seat (calls.Close id rule) result.1 result.0 }
    {
        self.ask(rt, seat, Call::Close { id, rule })
    }

    /// Lets out again what a cycle let out.
    pub fn resend<W: Wait>(
        &self,
        rt: &W,
        seat: Seat<L>,
        id: CycleId,
    ) -> (Seat<L>, Result<Receipt, OfficeFault>)
        ensures { IsAnswered R.SIDE seat (calls.Resend id) result.1 result.0 }
    {
        self.ask(rt, seat, Call::Resend(id))
    }

    /// Records a contract.
    pub fn contract<W: Wait>(
        &self,
        rt: &W,
        seat: Seat<L>,
        contract: Contract,
    ) -> (Seat<L>, Result<Receipt, OfficeFault>)
        ensures { IsAnswered R.SIDE seat (calls.Contract contract) result.1 result.0 }
    {
        self.ask(rt, seat, Call::Contract(contract))
    }

    /// Records a notice.
    pub fn notice<W: Wait>(
        &self,
        rt: &W,
        seat: Seat<L>,
        notice: Notice,
    ) -> (Seat<L>, Result<Receipt, OfficeFault>)
        ensures { IsAnswered R.SIDE seat (calls.Notice notice) result.1 result.0 }
    {
        self.ask(rt, seat, Call::Notice(notice))
    }

    /// Halts the desk, and wakes all that wait for it.
    pub fn halt<W: Wait>(&self, rt: &W, seat: Seat<L>) -> (Seat<L>, Result<Receipt, OfficeFault>)
        ensures { IsAnswered R.SIDE seat calls.Halt result.1 result.0 }
    {
        let answered = self.ask(rt, seat, Call::Halt);
        self.changed.notify_all();
        answered
    }

    /// Waits until fact number `n` is saved or the desk is halted.
    fn wait_for<W: Wait>(&self, rt: &W, n: u32) -> Waited
        ensures fact { IsWaited R.SIDE n result }
        ensures known { result ≢ Waited.NoFact }
    {
        let mut held = self.held.lock(rt);
        for _ in rt.forever() {
            if let Some(waited) = became_of(&*held, n) {
                return waited;
            }
            held = self.changed.wait(rt, held);
        }
        unreachable!()
    }

    /// Waits until the fact of the receipt is saved or the desk is halted; `Saved` where both hold.
    /// `NoFact` at once where the receipt's answer is neither `Recorded` nor `Repeat`. It looks at
    /// the fact's number alone, whichever office gave the receipt.
    pub fn wait_saved<W: Wait>(&self, rt: &W, receipt: &Receipt) -> Waited
        ensures none { (result ≡ Waited.NoFact) ↔ (number_in receipt.now.reply.answer ≡ None) }
        ensures fact { IfSome (number_in receipt.now.reply.answer) (λ n. IsWaited R.SIDE n result) }
    {
        match number_of(&receipt.reply.answer) {
            Some(n) => self.wait_for(rt, n),
            None => Waited::NoFact,
        }
    }

    /// Takes the office apart, as `Held::settle` says of what the lock kept.
    pub fn settle(self, seats: Vec<Seat<L>>) -> Result<Settled<R>, Unsettled>
        ensures { SettlesKept R.SIDE L.parts self.seats seats.items result }
    {
        let Office {
            held,
            changed: _,
            seats: count,
        } = self;
        taken_apart(held.into_inner(), count, seats)
    }
}

fn taken_apart<R: Role, L: Ledger>(
    held: Held<R, L>,
    count: u8,
    seats: Vec<Seat<L>>,
) -> Result<Settled<R>, Unsettled>
    ensures { SettlesKept R.SIDE L.parts count seats.items result }
{
    held.reveal_invariant();
    held.settle_seats(count, seats)
}
