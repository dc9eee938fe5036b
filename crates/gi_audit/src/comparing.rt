//! What is found of one cycle.

ghost use Rattle.std.specs.Prelude.{◌≡◌};
ghost use Rattle.std.specs.Option.{option_copied};
ghost use Rattle.gi_audit.specs.Finding.{against as against_of, difference as difference_of, finding as finding_of, undisputed as undisputed_of};
ghost use Rattle.gi_audit.specs.Place.{place_between as place_between_of, place_found as place_found_of};

use crate::closing::saved_closing;
use crate::difference::{Against, Difference};
use crate::finding::Finding;
use crate::place::{Place, first_place};
use crate::sending::sent_table;
use crate::total::total;
use gi_desk::{Desk, Role};
use gi_initiator::Initiating;
use gi_matcher::Matching;
use gi_pairs::{CycleId, Direction, Side, Table};

fn against<R: Role>(desk: &Desk<R>, id: &CycleId, met: &Table) -> Option<Against>
    ensures { result ≡ against_of R.SIDE desk.now id.now met.now }
{
    let Some(closing) = saved_closing(desk, id) else {
        return Some(Against::NotClosed);
    };
    match sent_table(desk, id) {
        Some(sent) if met == sent => None,
        Some(_) => Some(Against::Closed(closing)),
        None => Some(Against::NotMet),
    }
}

#[tactic(auto, unfolding(crate::specs::Finding::difference, gi_desk::specs::Queries::meeting))]
fn difference<R: Role, S: Role>(desk: &Desk<R>, peer: &Desk<S>, id: &CycleId) -> Option<Difference>
    ensures { result ≡ difference_of R.SIDE S.SIDE desk.now peer.now id.now }
{
    let (met, table) = desk.meeting(*id)?;
    let against = against(peer, id, table)?;
    Some(Difference {
        side: R::SIDE,
        met,
        against,
    })
}

fn undisputed(ours: Option<&Table>, theirs: Option<&Table>) -> Finding
    ensures { result ≡ undisputed_of (option_copied ours.entry) (option_copied theirs.entry) }
{
    match (ours, theirs) {
        (Some(table), Some(_)) => Finding::Agreed {
            im: total(table, Direction::IM),
            mi: total(table, Direction::MI),
        },
        (None, Some(_)) => Finding::OpenAtInitiating,
        (_, None) => Finding::OpenAtBoth,
    }
}

/// What is found of a cycle at two desks: that a table that one of them met is
/// not the one that the other wrote, first the one that the matching side met; or how far both are.
#[tactic(auto, unfolding(crate::specs::Finding::finding))]
pub(crate) fn found_at(
    initiating: &Desk<Initiating>,
    matching: &Desk<Matching>,
    id: &CycleId,
) -> Finding
    ensures { result ≡ finding_of initiating.now matching.now id.now }
{
    if let Some(found) = difference(matching, initiating, id) {
        return Finding::Differs(found);
    }
    if let Some(found) = difference(initiating, matching, id) {
        return Finding::Differs(found);
    }
    undisputed(initiating.confirmed(*id), matching.confirmed(*id))
}

#[tactic(auto, unfolding(crate::specs::Place::place_between, gi_desk::specs::Queries::meeting))]
fn place_between<R: Role, S: Role>(desk: &Desk<R>, peer: &Desk<S>, id: &CycleId) -> Option<Place>
    ensures { result ≡ place_between_of S.SIDE desk.now peer.now id.now }
{
    let (_, met) = desk.meeting(*id)?;
    let written = sent_table(peer, id)?;
    first_place(met, written)
}

/// Where what was found of a cycle differs: no place where nothing does, or where the other side has
/// written no table.
pub(crate) fn place_found(
    initiating: &Desk<Initiating>,
    matching: &Desk<Matching>,
    id: &CycleId,
    found: Finding,
) -> Option<Place>
    ensures { result ≡ place_found_of found initiating.now matching.now id.now }
{
    let Finding::Differs(difference) = found else {
        return None;
    };
    match difference.side {
        Side::I => place_between(initiating, matching, id),
        Side::M => place_between(matching, initiating, id),
    }
}
