//! A book that the turns of an office save into.

ghost use Rattle.std.specs.Prelude.{◌≡◌, IfErr};
ghost use Rattle.gi_serving.specs.Asking.{saved_of};
ghost use Rattle.gi_serving.specs.Ending.{IsTurnFault};

use gi_desk::Role;
use gi_office::{Office, SaveFault, Seat, Turn};
use gi_store::BookStore;
use sqlite::Alter;
use std::sync::Wait;
use std::sync::ledger::Ledger;

/// A book. What it holds once it is loaded, and what a turn makes of it, the ghost members say: no contract
/// of this crate but those of its impl and of `serve` looks further into it. The books of both offices are
/// of two types here, so that none stands in the other's place.
pub trait Turns {
    ghost use Rattle.std.specs.Prelude.{◌≡◌, IfErr, List, OnOk, Result};
    ghost use Rattle.gi_facts.specs.declared.fact.Fact.{Fact};
    ghost use Rattle.gi_office.specs.Keeping.{SeatState};
    ghost use Rattle.gi_office.specs.declared.save_fault.SaveFault.{SaveFault};
    ghost use Rattle.gi_office.specs.declared.turn.Turn.{Turn};
    ghost use Rattle.gi_pairs.specs.declared.side.Side.{Side};
    ghost use Rattle.gi_serving.specs.Asking.{IsTurned, NotesMarks, NotesTurns};
    ghost use Rattle.gi_serving.specs.Ending.{IsTurnFault, place_of};

    /// It is loaded, and these are its facts.
    ghost holds: { Self → List Fact → Type 0 };

    /// What a turn at a side makes of the book and of a seat, and comes to.
    ghost takes: { Side → Self → Self → SeatState → Result Turn SaveFault → SeatState → Type 0 };

    /// A turn of the office that saves into this book, and whether it saved a fact.
    fn turned<R: Role, L: Ledger, W: Wait>(
        &mut self,
        rt: &W,
        office: &Office<R, L>,
        seat: Seat<L>,
    ) -> (Seat<L>, Result<bool, SaveFault>)
        ensures place { place_of result.0 ≡ place_of seat }
        ensures marks { OnOk result.1 (NotesMarks seat result.0) }
        ensures notes { NotesTurns seat result.0 }
        ensures fault { IfErr result.1 IsTurnFault }
        ensures turn { IsTurned (takes R.SIDE self.old self.new) seat result.1 result.0 };
}

fn saved(turn: Result<Turn, SaveFault>) -> Result<bool, SaveFault>
    ensures value { result ≡ saved_of turn }
    ensures fault { IfErr result IsTurnFault }
{
    match turn {
        Ok(Turn::Saved(receipt)) => {
            drop(receipt);
            Ok(true)
        }
        Ok(Turn::Nothing) => Ok(false),
        Err(SaveFault::Halted) => Ok(false),
        Err(fault) => Err(fault),
    }
}

impl<S: Alter> Turns for BookStore<S> {
    ghost use Rattle.gi_office.specs.Saving.{TakesTurn};
    ghost use Rattle.gi_serving.specs.Books.{HasFacts};

    ghost holds = { λ book facts. HasFacts S.Store book facts };

    ghost takes = { λ side old new. TakesTurn side S.Store old new };

    fn turned<R: Role, L: Ledger, W: Wait>(
        &mut self,
        rt: &W,
        office: &Office<R, L>,
        seat: Seat<L>,
    ) -> (Seat<L>, Result<bool, SaveFault>) {
        let (seat, turn) = office.save_turn(rt, seat, self);
        (seat, saved(turn))
    }
}
