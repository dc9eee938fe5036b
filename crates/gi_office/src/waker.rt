ghost use Rattle.std.specs.Prelude.{◌≡◌};

use crate::gate::Gate;
use crossbeam_channel::Sender;
use gi_pairs::Side;
use std::marker::Model;
use std::sync::Wait;

/// A gate that lets every call through, and tells who makes turns that save of each that was
/// answered: it sends the side of the office. Where nobody takes the notices, or memory runs out, the
/// notice is lost, and nothing else changes.
#[derive(Drop)]
pub struct Waker {
    side: Side,
    sender: Sender<Side>,
}

impl Model for Waker {
    ghost use Rattle.gi_pairs.specs.declared.side.Side.{Side};

    ghost Value = { Side };

    ghost view = { λ w. w.side };
}

impl Waker {
    /// One that sends this side over this channel, which should be unbounded.
    pub fn new(side: Side, sender: Sender<Side>) -> Waker
        ensures { result ≡ side }
    {
        Waker { side, sender }
    }
}

impl Gate for Waker {
    ghost may_go = { λ _ session call. Unit {0} };

    ghost may_end = { λ _ session call. ⊥ };

    fn hold<W: Wait>(&self, _rt: &W, _session: usize, _call: usize) -> bool {
        true
    }

    fn answered<W: Wait>(&self, rt: &W, _session: usize, _call: usize) {
        let _ = self.sender.send(rt, self.side);
    }
}
