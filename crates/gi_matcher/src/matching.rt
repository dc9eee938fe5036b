use crate::order::take_order;
use crate::response::response_for;
use gi_cycles::{CycleState, Frozen, Matched};
use gi_desk::{Decision, Role};
use gi_messages::{Delord, Message};
use gi_pairs::{Code, CycleId, Side};
use gi_parts::KeptParts;
use std::alloc::{AllocError, Global};

/// The matching operator: it takes the order, and sends the response.
pub struct Matching;

impl Role for Matching {
    ghost use Rattle.gi_messages.specs.declared.message.Message.TheVariants as messages;
    ghost use Rattle.gi_pairs.specs.declared.side.Side.TheVariants.{M};

    ghost SIDE = { M };

    type Received = Delord;

    ghost as_message = { λ order. messages.Delord order };

    const SIDE: Side = Side::M;

    fn received(message: Message) -> Option<Delord> {
        match message {
            Message::Delord(order) => Some(order),
            other => {
                // (handed to drop, by one call: going out of scope here would be checked field by field on each way out)
                drop(other);
                None
            }
        }
    }

    fn address(order: &Delord) -> (Code, CycleId) {
        let id = CycleId {
            day: order.day,
            cycle: order.cycle,
        };
        (order.point, id)
    }

    fn part(order: &Delord) -> u8 {
        order.part
    }

    fn decide(alloc: Global, state: &CycleState, kept: &KeptParts, order: Delord) -> Decision {
        take_order(alloc, state, kept, order)
    }

    fn on_closed(alloc: Global, _point: Code, _cycle: &Frozen) -> Result<Vec<Message>, AllocError> {
        Ok(Vec::new(alloc))
    }

    fn on_met(alloc: Global, point: Code, cycle: &Matched) -> Result<Vec<Message>, AllocError> {
        response_for(alloc, point, cycle)
    }
}
