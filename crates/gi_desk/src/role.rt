ghost use Rattle.std.specs.Prelude.{◌≡◌, ◌≢◌, [], IfErr, IfOk, Some};
ghost use Rattle.std.specs.Option.{option_map};
ghost use Rattle.gi_desk.specs.Deciding.{IsDecided, IsReceivable, address_of, for_role, number_in};
ghost use Rattle.gi_desk.specs.Messages.{on_closed as orders_on_closing, on_met as responses_on_meeting};

use crate::decision::Decision;
use gi_cycles::{CycleState, Frozen, Matched};
use gi_messages::Message;
use gi_pairs::{Code, CycleId, Side};
use gi_parts::KeptParts;
use std::alloc::{AllocError, Global};

/// An operator's part in the exchange of a cycle's tables.
pub trait Role {
    ghost use Rattle.gi_messages.specs.declared.message.Message.{Message};
    ghost use Rattle.gi_pairs.specs.declared.side.Side.{Side};

    ghost SIDE: { Side };

    /// What the peer sends: the order to the matching side, the response to the initiating one.
    type Received: Drop;

    /// It as the message that carries it.
    ghost as_message: { Self.Received → Message };

    /// Which operator it is.
    const SIDE: Side;

    /// What the message carries, where it is of the kind that is for this side.
    fn received(message: Message) -> Option<Self::Received>
        ensures { option_map as_message result ≡ for_role SIDE message };

    /// The interconnection point and the cycle that it is for.
    fn address(received: &Self::Received) -> (Code, CycleId)
        ensures { Some result ≡ address_of SIDE (as_message received.now) };

    /// Which part of several it is, from 1: 1 where it comes whole.
    fn part(received: &Self::Received) -> u8
        ensures { result ≡ number_in (as_message received.now) };

    /// What comes of the peer's order or response, one that can be read, in a state of its cycle and
    /// with the parts that are kept: `NotClosed` while nominations are collected, then `ShapeDiffers`.
    /// A frozen cycle: one part of several is `PartDiffers`, or to be kept until it is the last one
    /// missing; then all together are `PartsOverlap`, `TooManyRows`, or the tables. These, or those of
    /// a whole message, are at the initiating side `NotTheLesser`, and else meet. A matched cycle has
    /// met it already or answers `Conflict`, after `NotTheLesser` of a whole response. `OutOfMemory`
    /// comes only for the hours of the frozen table: of a frozen cycle at the matching side only for
    /// one part of several, and of a matched one only for a whole response.
    fn decide(
        alloc: Global,
        state: &CycleState,
        kept: &KeptParts,
        received: Self::Received,
    ) -> Decision
        requires { IsReceivable (as_message received) }
        ensures { IsDecided SIDE state.now kept.now (as_message received) result };

    /// What the peer is sent when the cycle is closed, at the interconnection point, in order.
    fn on_closed(alloc: Global, point: Code, cycle: &Frozen) -> Result<Vec<Message>, AllocError>
        ensures value { IfOk result (λ messages. messages.items ≡ orders_on_closing SIDE point cycle.now) }
        ensures short { IfErr result (λ _. orders_on_closing SIDE point cycle.now ≢ []) };

    /// What the peer is sent when the cycle has met the peer's table, in order.
    fn on_met(alloc: Global, point: Code, cycle: &Matched) -> Result<Vec<Message>, AllocError>
        ensures value { IfOk result (λ messages. messages.items ≡ responses_on_meeting SIDE point cycle.now) }
        ensures short { IfErr result (λ _. responses_on_meeting SIDE point cycle.now ≢ []) };
}
