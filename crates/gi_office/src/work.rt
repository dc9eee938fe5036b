//! Sessions under way.

ghost use Rattle.std.specs.Prelude.{◌≡◌, ◌≤◌, [], All, IfOk, length, map, vec_capacity};
ghost use Rattle.gi_office.specs.Working.{AreRooms, IsReady, served_of, session_of};

use crate::office_fault::OfficeFault;
use crate::receipt::Receipt;
use crate::seat::Seat;
use crate::session::{Served, Session};
use gi_desk::Body;
use std::alloc::{AllocError, Global};
use std::sync::ledger::Ledger;

/// The receipts have room for one of each body from the start, so that a worker takes no memory for them.
#[derive(Drop)]
pub(crate) struct Work<L: Ledger> {
    pub(crate) seat: Seat<L>,
    pub(crate) bodies: Vec<Body>,
    pub(crate) receipts: Vec<Receipt>,
    pub(crate) fault: Option<OfficeFault>,
}

impl<L: Ledger> Work<L> {
    fn new(session: Session<L>, receipts: Vec<Receipt>) -> Work<L>
        ensures session { session_of result ≡ session }
        ensures receipts { result.receipts ≡ receipts }
    {
        let Session { seat, bodies } = session;
        Work {
            seat,
            bodies,
            receipts,
            fault: None,
        }
    }

    fn into_served(self) -> Served<L>
        ensures { result ≡ served_of self }
    {
        let Work {
            seat,
            bodies: _,
            receipts,
            fault,
        } = self;
        Served {
            seat,
            receipts,
            fault,
        }
    }
}

fn rooms_for<L: Ledger>(
    alloc: Global,
    sessions: &[Session<L>],
) -> Result<Vec<Vec<Receipt>>, AllocError>
    ensures { IfOk result (λ rooms. AreRooms sessions.now rooms.items) }
{
    let mut rooms = Vec::with_capacity(alloc, sessions.len())?;
    for session in sessions {
        let Ok(room) = Vec::with_capacity(alloc, session.count()) else {
            // (handed to drop, by one call: going out of scope here would be checked field by field on each way out)
            drop(rooms);
            return Err(AllocError);
        };
        rooms.push_reserved(room);
    }
    Ok(rooms)
}

/// All memory that serving takes, before the first call: where it is refused the sessions are as they
/// were.
pub(crate) fn growths<L: Ledger>(
    sessions: &Vec<Session<L>>,
) -> Result<(Vec<Vec<Receipt>>, Vec<Work<L>>, Vec<Served<L>>), AllocError>
    ensures rooms { IfOk result (λ all. AreRooms sessions.now.items all.0.items) }
    ensures works { IfOk result (λ all. (all.1.items ≡ []) × (length sessions.now.items ≤ vec_capacity all.1)) }
    ensures served { IfOk result (λ all. (all.2.items ≡ []) × (length sessions.now.items ≤ vec_capacity all.2)) }
{
    let alloc = *sessions.allocator();
    let rooms = rooms_for(alloc, sessions)?;
    let works = Vec::with_capacity(alloc, sessions.len())?;
    let served = Vec::with_capacity(alloc, sessions.len())?;
    Ok((rooms, works, served))
}

pub(crate) fn begun<L: Ledger>(
    sessions: Vec<Session<L>>,
    rooms: Vec<Vec<Receipt>>,
    works: Vec<Work<L>>,
) -> Vec<Work<L>>
    requires rooms { AreRooms sessions.items rooms.items }
    requires none { works.items ≡ [] }
    requires room { length sessions.items ≤ vec_capacity works }
    ensures sessions { map session_of result.items ≡ sessions.items }
    ensures ready { All IsReady result.items }
{
    let mut rooms = rooms.into_iter();
    let mut works = works;
    for session in sessions {
        let receipts = rooms.next().unwrap();
        works.push_reserved(Work::new(session, receipts));
    }
    works
}

pub(crate) fn ended<L: Ledger>(works: Vec<Work<L>>, served: Vec<Served<L>>) -> Vec<Served<L>>
    requires none { served.items ≡ [] }
    requires room { length works.items ≤ vec_capacity served }
    ensures { result.items ≡ map served_of works.items }
{
    let mut served = served;
    for work in works {
        served.push_reserved(work.into_served());
    }
    served
}
