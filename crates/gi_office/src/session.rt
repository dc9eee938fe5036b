ghost use Rattle.std.specs.Prelude.{◌≡◌, length};

use crate::office_fault::OfficeFault;
use crate::receipt::Receipt;
use crate::seat::Seat;
use gi_desk::Body;
use std::marker::Model;
use std::sync::ledger::Ledger;

/// A session of a shipper: its seat, and the bodies to submit from it, in order.
#[derive(Drop)]
pub struct Session<L: Ledger> {
    pub(crate) seat: Seat<L>,
    pub(crate) bodies: Vec<Body>,
}

impl<L: Ledger> Model for Session<L> {
    ghost use Rattle.gi_office.specs.Serving.{SessionState};

    ghost Value = { SessionState };

    ghost view = { λ s. record { seat = s.seat; bodies = s.bodies.items } };
}

impl<L: Ledger> Session<L> {
    /// A session that submits these bodies from this seat.
    pub fn new(seat: Seat<L>, bodies: Vec<Body>) -> Session<L>
        ensures seat { result.seat ≡ seat }
        ensures bodies { result.bodies ≡ bodies.items }
    {
        Session { seat, bodies }
    }

    /// The seat, and the bodies: all of both where it was not served.
    pub fn into_parts(self) -> (Seat<L>, Vec<Body>)
        ensures seat { result.0 ≡ self.seat }
        ensures bodies { result.1.items ≡ self.bodies }
    {
        let Session { seat, bodies } = self;
        (seat, bodies)
    }

    pub(crate) fn count(&self) -> usize
        ensures { result ≡ length self.now.bodies }
    {
        self.bodies.len()
    }
}

/// What came of a session: its seat, a receipt for each body that was submitted, in order, and the
/// fault that ended it, if any.
#[derive(Drop)]
pub struct Served<L: Ledger> {
    pub(crate) seat: Seat<L>,
    pub(crate) receipts: Vec<Receipt>,
    pub(crate) fault: Option<OfficeFault>,
}

impl<L: Ledger> Model for Served<L> {
    ghost use Rattle.gi_office.specs.Serving.{ServedState};

    ghost Value = { ServedState };

    ghost view = { λ s. record { seat = s.seat; receipts = s.receipts.items; fault = s.fault } };
}

impl<L: Ledger> Served<L> {
    /// The seat, the receipts and the fault.
    pub fn into_parts(self) -> (Seat<L>, Vec<Receipt>, Option<OfficeFault>)
        ensures seat { result.0 ≡ self.seat }
        ensures receipts { result.1.items ≡ self.receipts }
        ensures fault { result.2 ≡ self.fault }
    {
        let Served {
            seat,
            receipts,
            fault,
        } = self;
        (seat, receipts, fault)
    }
}
