//! Where a pair gets less than was nominated.

ghost use Rattle.std.specs.Prelude.{◌≡◌, ◌++◌, IfOk, OnOk, Some};
ghost use Rattle.std.specs.Option.{option_copied};
ghost use Rattle.gi_desk.specs.Queries.{frozen as frozen_of};
ghost use Rattle.gi_schedule.specs.Cuts.{AreCuts, cuts_if, cuts_of, cycle_cuts, cycle_lines, hour_cut as cut_of_hour, if_cut, key_cuts, peer_table, row_cuts};

use crate::cut_line::CutLine;
use crate::nominated::{nominated_line, quantity};
use crate::wanted::Wanted;
use gi_desk::{Desk, Role};
use gi_messages::NominationLine;
use gi_pairs::{CycleId, Key, Row, Table};
use gi_reports::closed_cycles;
use std::alloc::{AllocError, Global};

/// The tables of a confirmed cycle: the side's own, the other operator's, and the confirmed one.
#[derive(Clone, Copy)]
struct Tables<'a> {
    own: &'a Table,
    peer: &'a Table,
    confirmed: &'a Table,
}

fn hour_cut(
    id: &CycleId,
    key: &Key,
    line: Option<&NominationLine>,
    tables: &Tables,
    hour: u8,
) -> CutLine
    ensures { result ≡ cut_of_hour id.now key.now (option_copied line.entry) tables.now.own.now tables.now.peer.now tables.now.confirmed.now hour }
{
    let nominated = quantity(line, hour);
    let processed = tables.own.at(key.pair, key.direction, hour);
    let peer = tables.peer.at(key.pair, key.direction, hour);
    let confirmed = tables.confirmed.at(key.pair, key.direction, hour);
    CutLine {
        id: *id,
        direction: key.direction,
        pair: key.pair,
        hour,
        nominated,
        processed,
        peer,
        confirmed,
        by_capacity: nominated.saturating_sub(processed),
        by_peer: nominated.min(processed).saturating_sub(confirmed),
    }
}

fn add_if_cut(lines: &mut Vec<CutLine>, line: CutLine) -> Result<(), AllocError>
    ensures { OnOk result (lines.new.items ≡ lines.old.items ++ if_cut line) }
{
    if line.confirmed < line.nominated {
        lines.push(line)?;
    }
    Ok(())
}

fn add_key(
    lines: &mut Vec<CutLine>,
    id: &CycleId,
    key: &Key,
    line: Option<&NominationLine>,
    tables: &Tables,
) -> Result<(), AllocError>
    ensures { OnOk result (lines.new.items ≡ lines.old.items ++ key_cuts id.now key.now (option_copied line.entry) tables.now.own.now tables.now.peer.now tables.now.confirmed.now) }
{
    tables.own.reveal_invariant();
    for hour in tables.own.first()..tables.own.last() + 1 {
        add_if_cut(lines, hour_cut(id, key, line, tables, hour))?;
    }
    Ok(())
}

fn add_row<R: Role>(
    lines: &mut Vec<CutLine>,
    desk: &Desk<R>,
    wanted: &Wanted,
    id: &CycleId,
    tables: &Tables,
    row: &Row,
) -> Result<(), AllocError>
    ensures { OnOk result (lines.new.items ≡ lines.old.items ++ row_cuts R.SIDE desk.now wanted.now id.now tables.now.own.now tables.now.peer.now tables.now.confirmed.now row.now) }
{
    if !wanted.has_pair(&row.pair) {
        return Ok(());
    }
    let key = row.key();
    add_key(lines, id, &key, nominated_line(desk, *id, &key), tables)
}

fn add_rows<R: Role>(
    lines: &mut Vec<CutLine>,
    desk: &Desk<R>,
    wanted: &Wanted,
    id: &CycleId,
    tables: &Tables,
) -> Result<(), AllocError>
    ensures { OnOk result (lines.new.items ≡ lines.old.items ++ cycle_cuts R.SIDE desk.now wanted.now id.now tables.now.own.now tables.now.peer.now tables.now.confirmed.now) }
{
    for row in tables.own.rows() {
        add_row(lines, desk, wanted, id, tables, row)?;
    }
    Ok(())
}

fn add_met<R: Role>(
    lines: &mut Vec<CutLine>,
    desk: &Desk<R>,
    wanted: &Wanted,
    id: &CycleId,
    peer: &Table,
    confirmed: &Table,
) -> Result<(), AllocError>
    ensures { OnOk result (lines.new.items ≡ lines.old.items ++ cuts_if R.SIDE desk.now wanted.now id.now (frozen_of R.SIDE desk.now.facts id.now) (Some peer.now) (Some confirmed.now)) }
{
    match desk.frozen(*id) {
        Some(own) => {
            let tables = Tables {
                own,
                peer,
                confirmed,
            };
            add_rows(lines, desk, wanted, id, &tables)
        }
        None => Ok(()),
    }
}

fn peer_of<'a, R: Role>(desk: &'a Desk<R>, id: &CycleId) -> Option<&'a Table>
    ensures { option_copied result ≡ peer_table desk.now.facts id.now }
{
    match desk.meeting(*id) {
        Some((_, peer)) => Some(peer),
        None => None,
    }
}

fn add_confirmed<R: Role>(
    lines: &mut Vec<CutLine>,
    desk: &Desk<R>,
    wanted: &Wanted,
    id: &CycleId,
    confirmed: &Table,
) -> Result<(), AllocError>
    ensures { OnOk result (lines.new.items ≡ lines.old.items ++ cuts_if R.SIDE desk.now wanted.now id.now (frozen_of R.SIDE desk.now.facts id.now) (peer_table desk.now.facts id.now) (Some confirmed.now)) }
{
    match peer_of(desk, id) {
        Some(peer) => add_met(lines, desk, wanted, id, peer, confirmed),
        None => Ok(()),
    }
}

fn add_cycle<R: Role>(
    lines: &mut Vec<CutLine>,
    desk: &Desk<R>,
    wanted: &Wanted,
    id: &CycleId,
) -> Result<(), AllocError>
    ensures { OnOk result (lines.new.items ≡ lines.old.items ++ cycle_lines R.SIDE desk.now wanted.now id.now) }
{
    match desk.confirmed(*id) {
        Some(confirmed) => add_confirmed(lines, desk, wanted, id, confirmed),
        None => Ok(()),
    }
}

#[tactic(auto, unfolding(crate::specs::Cuts::cuts_of))]
fn add_wanted<R: Role>(
    lines: &mut Vec<CutLine>,
    desk: &Desk<R>,
    wanted: &Wanted,
    id: &CycleId,
) -> Result<(), AllocError>
    ensures { OnOk result (lines.new.items ≡ lines.old.items ++ cuts_of R.SIDE desk.now wanted.now id.now) }
{
    if !wanted.has_day(id.day) {
        return Ok(());
    }
    add_cycle(lines, desk, wanted, id)
}

/// Each hour of each row of each confirmed cycle in which less is confirmed than was nominated: the
/// cycles by gas day and number, the rows of the side's own table in table order, the hours in order.
pub(crate) fn cut_lines<R: Role>(
    alloc: Global,
    desk: &Desk<R>,
    wanted: &Wanted,
) -> Result<Vec<CutLine>, AllocError>
    ensures { IfOk result (λ lines. AreCuts R.SIDE desk.now wanted.now lines.items) }
{
    let ids = closed_cycles(alloc, desk)?;
    let mut lines = Vec::new(alloc);
    for id in &ids {
        add_wanted(&mut lines, desk, wanted, id)?;
    }
    Ok(lines)
}
