use crate::order::order_for;
use crate::response::take_response;
use gi_cycles::{CycleState, Frozen, Matched};
use gi_desk::{Decision, Role};
use gi_messages::{Delres, Message};
use gi_pairs::{Code, CycleId, Side};
use gi_parts::KeptParts;
use std::alloc::{AllocError, Global};

/// The initiating operator: it sends the order, and takes the response.
pub struct Initiating;

impl Role for Initiating {
    ghost use Rattle.gi_messages.specs.declared.message.Message.TheVariants as messages;
    ghost use Rattle.gi_pairs.specs.declared.side.Side.TheVariants.{I};

    ghost SIDE = { I };

    type Received = Delres;

    ghost as_message = { λ response. messages.Delres response };

    const SIDE: Side = Side::I;

    fn received(message: Message) -> Option<Delres> {
        match message {
            Message::Delres(response) => Some(response),
            other => {
                // (handed to drop, by one call: going out of scope here would be checked field by field on each way out)
                drop(other);
                None
            }
        }
    }

    fn address(response: &Delres) -> (Code, CycleId) {
        let id = CycleId {
            day: response.day,
            cycle: response.cycle,
        };
        (response.point, id)
    }

    fn part(response: &Delres) -> u8 {
        response.part
    }

    fn decide(alloc: Global, state: &CycleState, kept: &KeptParts, response: Delres) -> Decision {
        take_response(alloc, state, kept, response)
    }

    fn on_closed(alloc: Global, point: Code, cycle: &Frozen) -> Result<Vec<Message>, AllocError> {
        order_for(alloc, point, cycle)
    }

    fn on_met(alloc: Global, _point: Code, _cycle: &Matched) -> Result<Vec<Message>, AllocError> {
        Ok(Vec::new(alloc))
    }
}
