ghost use Rattle.std.specs.Prelude.{◌≡◌, ◌<◌, ◌≤◌, All, Contains, Err, IfErr, IfOk, OnErr, OnOk, length, slice_get};
ghost use Rattle.std.specs.Option.{IfSome, option_copied, option_map};
ghost use Rattle.gi_carrier.specs.Carrier.{after_next, after_send, given as given_of, move_at, new_carrier};
ghost use Rattle.gi_carrier.specs.Kept.{bytes_of};
ghost use Rattle.gi_carrier.specs.Limits.{most_waiting};
ghost use Rattle.gi_carrier.specs.declared.moves.Move.TheVariants.{Repeat};
ghost use Rattle.gi_carrier.specs.declared.send_fault.SendFault.TheVariants.{Full, OutOfMemory};

use crate::making::make;
use crate::moves::Move;
use crate::plan::Plan;
use crate::send_fault::SendFault;
use std::alloc::{AllocError, Global};
use std::collections::VecDeque;
use std::marker::Model;

/// How many messages wait at most.
pub const MOST_WAITING: usize = 4096;

/// What passes from one office to the other: messages wait in a queue, and a plan says whether the
/// next one comes out, is lost, is repeated, or is put last.
#[derive(Drop)]
pub struct Carrier {
    waiting: VecDeque<Vec<u8>>,
    position: u64,
}

impl Model for Carrier {
    ghost use Rattle.std.specs.Prelude.{◌≤◌, length};
    ghost use Rattle.gi_carrier.specs.Carrier.{CarrierState};
    ghost use Rattle.gi_carrier.specs.Kept.{messages_of};
    ghost use Rattle.gi_carrier.specs.Limits.{most_waiting};

    ghost Value = { CarrierState };

    ghost view = { λ c. record { waiting = messages_of c.waiting; position = c.position } };

    ghost invariant = { λ c. length c.waiting.items ≤ most_waiting };
}

impl Carrier {
    /// A carrier at which nothing waits, at position 0.
    pub fn new(alloc: Global) -> Carrier
        ensures { result ≡ new_carrier }
    {
        Carrier {
            waiting: VecDeque::new(alloc),
            position: 0,
        }
    }

    /// How many messages wait: at most 4,096.
    pub fn len(&self) -> usize
        ensures value { result ≡ length self.now.waiting }
        ensures few { result ≤ most_waiting }
    {
        self.waiting.len()
    }

    /// The message that waits first, if one waits.
    pub fn first(&self) -> Option<&[u8]>
        ensures { option_copied result ≡ slice_get self.now.waiting 0 }
    {
        match self.waiting.front() {
            Some(first) => Some(first.as_slice()),
            None => None,
        }
    }

    /// The plan's move at this position: the one that `next` makes where something waits.
    pub fn coming_move(&self, plan: &Plan) -> Move
        ensures { result ≡ move_at plan.now self.now.position }
    {
        plan.move_at(self.position)
    }

    /// The message waits behind the others. `Full` where 4,096 wait, then `OutOfMemory`; after
    /// either the bytes come back, and the carrier is as it was.
    pub fn send(&mut self, message: Vec<u8>) -> Result<(), (Vec<u8>, SendFault)>
        ensures sent { OnOk result (self.new ≡ after_send message.items self.old) }
        ensures full { most_waiting ≤ length self.old.waiting → result ≡ Err (message, Full) }
        ensures wants { length self.old.waiting < most_waiting → IfErr result (λ refused. refused.1 ≡ OutOfMemory) }
        ensures bytes { IfErr result (λ refused. refused.0 ≡ message) }
        ensures unchanged { OnErr result (self.new ≡ self.old) }
        ensures few { length self.new.waiting ≤ most_waiting }
    {
        if MOST_WAITING <= self.waiting.len() {
            return Err((message, SendFault::Full));
        }
        match self.waiting.push_back(message) {
            Ok(()) => Ok(()),
            Err(refused) => Err((refused.value, SendFault::OutOfMemory)),
        }
    }

    /// Makes the plan's move at this position on the message that waits first, and goes on by one
    /// position, from the last u64 to 0. Where nothing waits nothing is given, and the position
    /// stays. `OutOfMemory` where the copy of a repeat is refused, and no other move wants memory;
    /// after it the carrier is as it was.
    pub fn next(&mut self, plan: &Plan) -> Result<Option<Vec<u8>>, AllocError>
        ensures given { IfOk result (λ out. option_map bytes_of out ≡ given_of plan.now self.old) }
        ensures left { OnOk result (self.new ≡ after_next plan.now self.old) }
        ensures repeats { OnErr result (move_at plan.now self.old.position ≡ Repeat) }
        ensures some { OnErr result (0 < length self.old.waiting) }
        ensures unchanged { OnErr result (self.new ≡ self.old) }
        ensures waited { IfOk result (λ out. IfSome out (λ message. Contains self.old.waiting message.items)) }
        ensures wait { All (Contains self.old.waiting) self.new.waiting }
    {
        if self.waiting.is_empty() {
            return Ok(None);
        }
        let given = make(&mut self.waiting, plan.move_at(self.position))?;
        self.position = self.position.wrapping_add(1);
        Ok(given)
    }
}
