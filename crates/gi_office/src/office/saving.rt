//! The turn that saves: it looks at the next facts under the lock, has the first of them stand in the
//! book with no lock held, and marks them under the lock.

ghost use Rattle.std.specs.Prelude.{◌≡◌, ◌⊎◌, ◌≤◌, Err, IfErr, IfOk, Ok, OnOk, length, take};
ghost use Rattle.gi_store.specs.Batches.{IsLongestFront};
ghost use Rattle.gi_office.specs.Saving.{AreNext, CanBeWritten, Halts, IsSeen, Marks, MarksAll, Saves, TakesNone, TakesTurn, turn_of as turn_of_mark};

use crate::facts::Facts;
use crate::held::Held;
use crate::look::Look;
use crate::office::Office;
use crate::office_fault::OfficeFault;
use crate::receipt::Receipt;
use crate::save_fault::SaveFault;
use crate::seat::Seat;
use crate::turn::Turn;
use crate::writing::write;
use gi_desk::{Answer, Call, Fact, Role};
use gi_store::{BookStore, StoreFault, fitting};
use sqlite::Alter;
use std::alloc::AllocError;
use std::mem;
use std::sync::Wait;
use std::sync::ledger::Ledger;

fn looked<R: Role, L: Ledger>(held: &Held<R, L>) -> Result<Look, AllocError>
    ensures seen { IfOk result (IsSeen R.SIDE) }
    ensures writable { IfOk result CanBeWritten }
{
    held.reveal_invariant();
    held.look()
}

fn turn_of(answer: Result<Receipt, OfficeFault>) -> Result<Turn, SaveFault>
    ensures { result ≡ turn_of_mark answer }
{
    let receipt = match answer {
        Ok(receipt) => receipt,
        Err(fault) => return Err(SaveFault::Office(fault)),
    };
    match receipt.reply.answer {
        Answer::Refused(refusal) => Err(SaveFault::Marked(refusal)),
        _ => Ok(Turn::Saved(receipt)),
    }
}

impl<R: Role, L: Ledger> Office<R, L> {
    /// A turn of the thread that saves. It copies the desk's next facts under the lock, 64 at most, has
    /// the first of them stand in the book with no lock held, and marks each of these under the lock,
    /// in order. As many are saved as one row takes: one, or those whose body together is no longer
    /// than 1,048,576 bytes. `Halted` where the desk is halted, and then `Nothing` where all facts are
    /// saved; where memory for the copies is refused it is `Office`, and nothing is done. A book that is
    /// ahead is loaded and not written: the facts that it has more are marked. Where the book refuses
    /// the facts, or is ahead by other ones, the desk is halted and the fault is `Store`. Where a mark
    /// or that halt does not come to the desk it is `Office`, and the row and the marks before it may
    /// stand; the next turn is one like any other.
    pub fn save_turn<S: Alter, W: Wait>(
        &self,
        rt: &W,
        seat: Seat<L>,
        book: &mut BookStore<S>,
    ) -> (Seat<L>, Result<Turn, SaveFault>)
        ensures { TakesTurn R.SIDE S.Store book.old book.new seat result.1 result.0 }
    {
        let mut seat = seat;
        let turn = self.turn(rt, &mut seat, book);
        (seat, turn)
    }

    fn look<W: Wait>(&self, rt: &W) -> Result<Look, AllocError>
        ensures seen { IfOk result (IsSeen R.SIDE) }
        ensures writable { IfOk result CanBeWritten }
    {
        looked(&*self.held.lock(rt))
    }

    fn turn<S: Alter, W: Wait>(
        &self,
        rt: &W,
        seat: &mut Seat<L>,
        book: &mut BookStore<S>,
    ) -> Result<Turn, SaveFault>
        ensures { TakesTurn R.SIDE S.Store book.old book.new seat.old result seat.new }
    {
        match self.look(rt) {
            Ok(Look::Next { n, facts }) => self.save(rt, seat, book, n, facts),
            Ok(Look::Nothing) => Ok(Turn::Nothing),
            Ok(Look::Halted) => Err(SaveFault::Halted),
            Err(_) => Err(SaveFault::Office(OfficeFault::OutOfMemory)),
        }
    }

    fn save<S: Alter, W: Wait>(
        &self,
        rt: &W,
        seat: &mut Seat<L>,
        book: &mut BookStore<S>,
        n: u32,
        facts: Facts,
    ) -> Result<Turn, SaveFault>
        requires { AreNext n facts }
        ensures { TakesNone book.old book.new seat.old result seat.new ⊎ Saves R.SIDE S.Store book.old book.new n facts seat.old result seat.new }
    {
        let facts = facts.into_vec();
        let Ok(front) = fitting(*facts.allocator(), &facts) else {
            return Err(SaveFault::Office(OfficeFault::OutOfMemory));
        };
        self.save_front(rt, seat, book, n, facts, front)
    }

    fn save_front<S: Alter, W: Wait>(
        &self,
        rt: &W,
        seat: &mut Seat<L>,
        book: &mut BookStore<S>,
        n: u32,
        facts: Vec<Fact>,
        front: usize,
    ) -> Result<Turn, SaveFault>
        requires next { AreNext n facts.items }
        requires longest { IsLongestFront facts.items front }
        ensures { Saves R.SIDE S.Store book.old book.new n facts.items seat.old result seat.new }
    {
        match write(book, n, &facts, front) {
            Ok(count) => self.mark_first(rt, seat, n, facts, count),
            Err(fault) => self.stop(rt, seat, fault),
        }
    }

    fn mark_first<W: Wait>(
        &self,
        rt: &W,
        seat: &mut Seat<L>,
        n: u32,
        facts: Vec<Fact>,
        count: usize,
    ) -> Result<Turn, SaveFault>
        requires next { AreNext n facts.items }
        requires some { 1 ≤ count }
        requires within { count ≤ length facts.items }
        ensures { MarksAll R.SIDE n (take count facts.items) seat.old result seat.new }
    {
        let mut facts = facts;
        facts.truncate(count);
        self.mark_all(rt, seat, n, facts)
    }

    fn mark_all<W: Wait>(
        &self,
        rt: &W,
        seat: &mut Seat<L>,
        n: u32,
        facts: Vec<Fact>,
    ) -> Result<Turn, SaveFault>
        requires { AreNext n facts.items }
        ensures { MarksAll R.SIDE n facts.items seat.old result seat.new }
    {
        let mut turn = Turn::Nothing;
        let mut marked = 0;
        for fact in facts {
            match self.mark_next(rt, seat, n + marked, fact, &mut turn) {
                Ok(()) => marked += 1,
                Err(fault) => {
                    drop(turn);
                    return Err(fault);
                }
            }
        }
        Ok(turn)
    }

    /// What the last mark came to is what the turn comes to.
    fn mark_next<W: Wait>(
        &self,
        rt: &W,
        seat: &mut Seat<L>,
        n: u32,
        fact: Fact,
        turn: &mut Turn,
    ) -> Result<(), SaveFault>
        ensures marked { OnOk result (Marks R.SIDE n fact seat.old (Ok turn.new) seat.new) }
        ensures refused { IfErr result (λ fault. Marks R.SIDE n fact seat.old (Err fault) seat.new) }
    {
        let next = self.mark(rt, seat, n, fact)?;
        drop(mem::replace(turn, next));
        Ok(())
    }

    fn mark<W: Wait>(
        &self,
        rt: &W,
        seat: &mut Seat<L>,
        n: u32,
        fact: Fact,
    ) -> Result<Turn, SaveFault>
        ensures { Marks R.SIDE n fact seat.old result seat.new }
    {
        turn_of(self.ask_and_wake(rt, seat, Call::MarkSaved { n, fact }))
    }

    fn stop<W: Wait>(
        &self,
        rt: &W,
        seat: &mut Seat<L>,
        fault: StoreFault,
    ) -> Result<Turn, SaveFault>
        ensures { Halts R.SIDE fault seat.old result seat.new }
    {
        match self.ask_and_wake(rt, seat, Call::Halt) {
            Ok(receipt) => {
                // (handed to drop, by one call: going out of scope here would be checked field by field on each way out)
                drop(receipt);
                Err(SaveFault::Store(fault))
            }
            Err(refused) => Err(SaveFault::Office(refused)),
        }
    }
}
