//! The page of a gas day of a side.

ghost use Rattle.std.specs.Prelude.{◌≡◌, ◌≤◌, ◌++◌, All, IfOk, OnOk, length};
ghost use Rattle.std.specs.Option.{option_copied};
ghost use Rattle.gi_day_tables.specs.Cuts.{IsLargestFirst};
ghost use Rattle.gi_page.specs.Sections.{empty_part as empty_part_of};
ghost use Rattle.gi_page.specs.DayBook.{IsHourBook, cycles_in};
ghost use Rattle.gi_page.specs.Page.{IsPage, cut_if, cuts_of, cuts_part, full_part, group, group_if, groups, main_part, pairs_part, row_text, row_texts, rows_part, shown_cuts, text_of};

use crate::cycle_marks::cycle_marks;
use crate::day_book::hour_books;
use crate::flows::{flow_hours, hours};
use crate::hour_book::HourBook;
use crate::keys::page_keys;
use crate::sections::{empty_part, head_part, put_front, top_part};
use crate::shown::hour_cycles;
use crate::style::page_end;
use crate::subject::Subject;
use gi_day::GasDay;
use gi_day_tables::{
    CycleMark, RowCut, cut_heads, cuts_end, cuts_foot, hour_section, largest_first, no_cuts,
    pair_heads, pairs_foot, put_cut_group, put_pair_row, put_row_cut, shown_groups,
};
use gi_desk::{Desk, Role};
use gi_pairs::Key;
use gi_picture::Hour;
use std::alloc::{AllocError, Global};

fn hour_count(books: &[HourBook]) -> u8
    requires { length books.now ≤ 25 }
    ensures value { result ≡ length (cycles_in books.now) }
    ensures count { result ≡ length books.now }
{
    books.len() as u8
}

// ---- pairs

fn put_row<R: Role>(
    alloc: Global,
    out: &mut Vec<u8>,
    desk: &Desk<R>,
    day: GasDay,
    books: &[HourBook],
    key: &Key,
) -> Result<(), AllocError>
    requires few { length books.now ≤ 25 }
    requires books { All (IsHourBook desk.now.facts day) books.now }
    ensures { OnOk result (out.new.items ≡ out.old.items ++ row_text R.SIDE desk.now day (cycles_in books.now) key.now) }
{
    let flows = flow_hours(alloc, desk, day, books, key)?;
    put_pair_row(alloc, out, key, &flows)?;
    Ok(())
}

fn put_rows<R: Role>(
    alloc: Global,
    out: &mut Vec<u8>,
    desk: &Desk<R>,
    day: GasDay,
    books: &[HourBook],
    keys: &[Key],
) -> Result<(), AllocError>
    requires few { length books.now ≤ 25 }
    requires books { All (IsHourBook desk.now.facts day) books.now }
    ensures { OnOk result (out.new.items ≡ out.old.items ++ row_texts R.SIDE desk.now day (cycles_in books.now) keys.now) }
{
    for key in keys {
        put_row(alloc, out, desk, day, books, key)?;
    }
    Ok(())
}

#[tactic(auto, unfolding(crate::specs::Page::pairs_part))]
fn put_pairs<R: Role>(
    alloc: Global,
    out: &mut Vec<u8>,
    desk: &Desk<R>,
    day: GasDay,
    books: &[HourBook],
    keys: &[Key],
    hours: &[Hour],
) -> Result<(), AllocError>
    requires few { length books.now ≤ 25 }
    requires books { All (IsHourBook desk.now.facts day) books.now }
    requires hours { length hours.now ≤ 25 }
    ensures { OnOk result (out.new.items ≡ out.old.items ++ pairs_part R.SIDE desk.now day (cycles_in books.now) keys.now hours.now) }
{
    let foot = pairs_foot(alloc, hours)?;
    out.extend_from_slice(pair_heads().as_bytes())?;
    put_rows(alloc, out, desk, day, books, keys)?;
    out.extend_from_slice(foot.as_bytes())
}

// ---- cuts

fn put_cut<R: Role>(
    alloc: Global,
    cuts: &mut Vec<RowCut>,
    desk: &Desk<R>,
    day: GasDay,
    books: &[HourBook],
    place: usize,
    key: Option<&Key>,
) -> Result<(), AllocError>
    requires few { length books.now ≤ 25 }
    requires books { All (IsHourBook desk.now.facts day) books.now }
    ensures { OnOk result (cuts.new.items ≡ cuts.old.items ++ cut_if R.SIDE desk.now day (cycles_in books.now) place (option_copied key.entry)) }
{
    let Some(key) = key else {
        return Ok(());
    };
    let flows = flow_hours(alloc, desk, day, books, key)?;
    put_row_cut(alloc, cuts, place, &flows)?;
    Ok(())
}

/// What each row that is cut is cut by, the largest first.
fn ordered_cuts<R: Role>(
    alloc: Global,
    desk: &Desk<R>,
    day: GasDay,
    books: &[HourBook],
    keys: &[Key],
) -> Result<Vec<RowCut>, AllocError>
    requires few { length books.now ≤ 25 }
    requires books { All (IsHourBook desk.now.facts day) books.now }
    ensures { IfOk result (λ cuts. IsLargestFirst (cuts_of R.SIDE desk.now day (cycles_in books.now) keys.now) cuts.items) }
{
    let mut cuts = Vec::new(alloc);
    for place in 0..keys.len() {
        put_cut(alloc, &mut cuts, desk, day, books, place, keys.get(place))?;
    }
    largest_first(&mut cuts)?;
    Ok(cuts)
}

fn put_group_of<R: Role>(
    alloc: Global,
    out: &mut Vec<u8>,
    desk: &Desk<R>,
    day: GasDay,
    books: &[HourBook],
    key: Option<&Key>,
) -> Result<(), AllocError>
    requires few { length books.now ≤ 25 }
    requires books { All (IsHourBook desk.now.facts day) books.now }
    ensures { OnOk result (out.new.items ≡ out.old.items ++ group_if R.SIDE desk.now day (cycles_in books.now) (option_copied key.entry)) }
{
    let Some(key) = key else {
        return Ok(());
    };
    let flows = flow_hours(alloc, desk, day, books, key)?;
    put_cut_group(alloc, out, hour_count(books), key, &flows)?;
    Ok(())
}

fn put_group<R: Role>(
    alloc: Global,
    out: &mut Vec<u8>,
    desk: &Desk<R>,
    day: GasDay,
    books: &[HourBook],
    keys: &[Key],
    cut: RowCut,
) -> Result<(), AllocError>
    requires few { length books.now ≤ 25 }
    requires books { All (IsHourBook desk.now.facts day) books.now }
    ensures { OnOk result (out.new.items ≡ out.old.items ++ group R.SIDE desk.now day (cycles_in books.now) keys.now cut) }
{
    put_group_of(alloc, out, desk, day, books, keys.get(cut.place))
}

fn put_groups<R: Role>(
    alloc: Global,
    out: &mut Vec<u8>,
    desk: &Desk<R>,
    day: GasDay,
    books: &[HourBook],
    keys: &[Key],
    cuts: &[RowCut],
) -> Result<(), AllocError>
    requires few { length books.now ≤ 25 }
    requires books { All (IsHourBook desk.now.facts day) books.now }
    ensures { OnOk result (out.new.items ≡ out.old.items ++ groups R.SIDE desk.now day (cycles_in books.now) keys.now cuts.now) }
{
    for cut in cuts {
        put_group(alloc, out, desk, day, books, keys, *cut)?;
    }
    Ok(())
}

#[tactic(auto, unfolding(crate::specs::Page::shown_cuts))]
fn put_shown_cuts<R: Role>(
    alloc: Global,
    out: &mut Vec<u8>,
    desk: &Desk<R>,
    day: GasDay,
    books: &[HourBook],
    keys: &[Key],
    cuts: &[RowCut],
) -> Result<(), AllocError>
    requires few { length books.now ≤ 25 }
    requires books { All (IsHourBook desk.now.facts day) books.now }
    ensures { OnOk result (out.new.items ≡ out.old.items ++ shown_cuts R.SIDE desk.now day (cycles_in books.now) keys.now cuts.now) }
{
    let foot = cuts_foot(alloc, cuts)?;
    let shown = &cuts[..shown_groups(cuts)];
    out.extend_from_slice(cut_heads().as_bytes())?;
    put_groups(alloc, out, desk, day, books, keys, shown)?;
    out.extend_from_slice(foot.as_bytes())?;
    out.extend_from_slice(cuts_end().as_bytes())
}

#[tactic(auto, unfolding(crate::specs::Page::cuts_part))]
fn put_cuts<R: Role>(
    alloc: Global,
    out: &mut Vec<u8>,
    desk: &Desk<R>,
    day: GasDay,
    books: &[HourBook],
    keys: &[Key],
    cuts: &[RowCut],
) -> Result<(), AllocError>
    requires few { length books.now ≤ 25 }
    requires books { All (IsHourBook desk.now.facts day) books.now }
    ensures { OnOk result (out.new.items ≡ out.old.items ++ cuts_part R.SIDE desk.now day (cycles_in books.now) keys.now cuts.now) }
{
    if cuts.is_empty() {
        return out.extend_from_slice(no_cuts().as_bytes());
    }
    put_shown_cuts(alloc, out, desk, day, books, keys, cuts)
}

// ---- the whole

#[tactic(auto, unfolding(crate::specs::Page::rows_part))]
fn put_rows_part<R: Role>(
    alloc: Global,
    out: &mut Vec<u8>,
    desk: &Desk<R>,
    day: GasDay,
    books: &[HourBook],
    keys: &[Key],
    hours: &[Hour],
    cuts: &[RowCut],
) -> Result<(), AllocError>
    requires few { length books.now ≤ 25 }
    requires books { All (IsHourBook desk.now.facts day) books.now }
    requires hours { length hours.now ≤ 25 }
    ensures { OnOk result (out.new.items ≡ out.old.items ++ rows_part R.SIDE desk.now day (cycles_in books.now) keys.now hours.now cuts.now) }
{
    let by_hour = hour_section(alloc, hour_count(books), hours)?;
    put_cuts(alloc, out, desk, day, books, keys, cuts)?;
    out.extend_from_slice(by_hour.as_bytes())?;
    put_pairs(alloc, out, desk, day, books, keys, hours)
}

#[tactic(auto, unfolding(crate::specs::Page::full_part))]
fn put_full<R: Role>(
    alloc: Global,
    out: &mut Vec<u8>,
    desk: &Desk<R>,
    day: GasDay,
    books: &[HourBook],
    keys: &[Key],
    hours: &[Hour],
    marks: &[CycleMark],
    cuts: &[RowCut],
) -> Result<(), AllocError>
    requires some { 2 ≤ length books.now }
    requires few { length books.now ≤ 25 }
    requires books { All (IsHourBook desk.now.facts day) books.now }
    requires hours { length hours.now ≤ 25 }
    ensures { OnOk result (out.new.items ≡ out.old.items ++ full_part R.SIDE desk.now day (cycles_in books.now) keys.now hours.now marks.now cuts.now) }
{
    let top = top_part(alloc, R::SIDE, keys, hour_count(books), hours, marks)?;
    out.extend_from_slice(top.as_bytes())?;
    put_rows_part(alloc, out, desk, day, books, keys, hours, cuts)
}

fn put_empty(
    alloc: Global,
    out: &mut Vec<u8>,
    hours: &[Hour],
    marks: &[CycleMark],
) -> Result<(), AllocError>
    requires { length hours.now ≤ 25 }
    ensures { OnOk result (out.new.items ≡ out.old.items ++ empty_part_of hours.now marks.now) }
{
    let text = empty_part(alloc, hours, marks)?;
    out.extend_from_slice(text.as_bytes())
}

#[tactic(auto, unfolding(crate::specs::Page::main_part))]
fn put_main<R: Role>(
    alloc: Global,
    out: &mut Vec<u8>,
    desk: &Desk<R>,
    day: GasDay,
    books: &[HourBook],
    keys: &[Key],
    hours: &[Hour],
    marks: &[CycleMark],
    cuts: &[RowCut],
) -> Result<(), AllocError>
    requires some { 2 ≤ length books.now }
    requires few { length books.now ≤ 25 }
    requires books { All (IsHourBook desk.now.facts day) books.now }
    requires hours { length hours.now ≤ 25 }
    ensures { OnOk result (out.new.items ≡ out.old.items ++ main_part R.SIDE desk.now day (cycles_in books.now) keys.now hours.now marks.now cuts.now) }
{
    if keys.is_empty() {
        return put_empty(alloc, out, hours, marks);
    }
    put_full(alloc, out, desk, day, books, keys, hours, marks, cuts)
}

#[tactic(auto, unfolding(crate::specs::Page::text_of))]
fn put_page<R: Role>(
    alloc: Global,
    out: &mut Vec<u8>,
    subject: &Subject,
    desk: &Desk<R>,
    day: GasDay,
    books: &[HourBook],
    keys: &[Key],
    hours: &[Hour],
    marks: &[CycleMark],
    cuts: &[RowCut],
) -> Result<(), AllocError>
    requires some { 2 ≤ length books.now }
    requires few { length books.now ≤ 25 }
    requires books { All (IsHourBook desk.now.facts day) books.now }
    requires hours { length hours.now ≤ 25 }
    ensures { OnOk result (out.new.items ≡ out.old.items ++ text_of subject.now R.SIDE desk.now day (cycles_in books.now) keys.now hours.now marks.now cuts.now) }
{
    let head = head_part(alloc, subject, hours, marks)?;
    put_front(alloc, out, subject)?;
    out.extend_from_slice(head.as_bytes())?;
    put_main(alloc, out, desk, day, books, keys, hours, marks, cuts)?;
    out.extend_from_slice(page_end().as_bytes())
}

/// The page of a gas day of a side, in one HTML file that loads nothing and runs no script: what is in
/// force by which cycle and what is not final; totals; charts of what is nominated, processed by this
/// side and by the peer, and in force, in each direction and net; the cycles; what was cut, the largest
/// first; the values by hour; and the pairs.
pub fn day_page<R: Role>(alloc: Global, desk: &Desk<R>, day: GasDay) -> Result<Vec<u8>, AllocError>
    ensures { IfOk result (λ text. IsPage R.SIDE desk.now day text.items) }
{
    let frame = desk.calendar().frame(day).unwrap();
    let count = frame.hours();
    let subject = Subject {
        point: desk.point(),
        side: R::SIDE,
        day,
        facts: desk.len(),
        count,
    };
    let keys = page_keys(alloc, desk, day)?;
    let cycles = hour_cycles(alloc, desk, day, count)?;
    let books = hour_books(alloc, desk, day, &cycles)?;
    let hours = hours(alloc, desk, day, &keys, &books)?;
    let marks = cycle_marks(alloc, desk, frame)?;
    let cuts = ordered_cuts(alloc, desk, day, &books, &keys)?;
    let mut out = Vec::new(alloc);
    put_page(
        alloc, &mut out, &subject, desk, day, &books, &keys, &hours, &marks, &cuts,
    )?;
    Ok(out)
}
