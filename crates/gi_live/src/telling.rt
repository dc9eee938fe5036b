//! What is written of what came of lines, and of what was saved.

ghost use Rattle.std.specs.Prelude.{◌≡◌, ◌+◌, ◌<◌, ◌≤◌, ◌^◌, ◌++◌, IfOk, OnOk, flat_map, length};
ghost use Rattle.std.specs.List.{list_all};
ghost use Rattle.gi_live.specs.Telling.{came_text as came_text_of, cames_text as cames_text_of, fact_in as fact_in_of, line_behind as line_behind_of, mark_text, may_tell as may_tell_of_answer, may_tell_of, packets_text as packets_text_of, saved_after as saved_after_of, saved_by as saved_by_of, step_text as step_text_of, told_text, unread_text};

use crate::answer::{answer_line, closed_line, due_line, refused_line};
use crate::came::{Came, UnreadLine};
use crate::packet::packet_line;
use gi_desk::{Answer, Packet};
use gi_office::Note;
use std::alloc::{AllocError, Global};

fn fact_in(answer: Answer) -> Option<u32>
    ensures { result ≡ fact_in_of answer }
{
    match answer {
        Answer::Recorded { n } | Answer::Repeat { n } | Answer::Saved { n } => Some(n),
        _ => None,
    }
}

fn saved_after(saved: u32, answer: Answer) -> u32
    ensures { result ≡ saved_after_of saved answer }
{
    match answer {
        Answer::Saved { n } => n,
        _ => saved,
    }
}

/// How many facts are saved once these marks are noted, where so many were before.
pub(crate) fn saved_by(saved: u32, marks: &[Note]) -> u32
    ensures { result ≡ saved_by_of saved marks.now }
{
    let mut now = saved;
    for mark in marks {
        now = saved_after(now, mark.reply.answer);
    }
    now
}

fn may_tell_answer(saved: u32, answer: Answer) -> bool
    ensures { result ≡ may_tell_of_answer saved answer }
{
    match fact_in(answer) {
        Some(n) => n <= saved,
        None => true,
    }
}

fn may_tell(saved: u32, came: &Came) -> bool
    ensures { result ≡ may_tell_of saved came.now }
{
    match came {
        Came::Unread(_) => true,
        Came::Answered { reply, .. } => may_tell_answer(saved, reply.answer),
        Came::Due { .. } => true,
        Came::Closed { reply, .. } => may_tell_answer(saved, reply.answer),
    }
}

/// Whether all may be told, by how many facts are saved.
pub(crate) fn may_tell_all(saved: u32, cames: &[Came]) -> bool
    ensures { result ≡ list_all (may_tell_of saved) cames.now }
{
    for came in cames {
        if !may_tell(saved, came) {
            return false;
        }
    }
    true
}

fn reason(line: UnreadLine) -> &'static str
    ensures { result.now ≡ unread_text line }
{
    match line {
        UnreadLine::Unreadable => "Unreadable",
        UnreadLine::TooLarge => "TooLarge",
        UnreadLine::Halted => "Halted",
    }
}

pub(crate) fn add_packets(
    alloc: Global,
    text: &mut Vec<u8>,
    fact: Option<u32>,
    packets: &[Packet],
) -> Result<(), AllocError>
    ensures { OnOk result (text.new.items ≡ text.old.items ++ packets_text_of fact packets.now) }
{
    for packet in packets {
        let line = packet_line(alloc, fact, packet)?;
        text.extend_from_slice(&line)?;
    }
    Ok(())
}

fn add_came(alloc: Global, text: &mut Vec<u8>, line: u64, came: &Came) -> Result<(), AllocError>
    ensures { OnOk result (text.new.items ≡ text.old.items ++ came_text_of line came.now) }
{
    match came {
        Came::Unread(unread) => {
            let refused = refused_line(alloc, line, reason(*unread), None)?;
            text.extend_from_slice(refused.as_bytes())
        }
        Came::Answered { reply, portfolio } => {
            let answer = answer_line(alloc, line, reply.answer, *portfolio)?;
            text.extend_from_slice(answer.as_bytes())?;
            add_packets(alloc, text, fact_in(reply.answer), reply.out.as_slice())
        }
        Came::Due { cycles } => {
            let due = due_line(alloc, line, *cycles)?;
            text.extend_from_slice(due.as_bytes())
        }
        Came::Closed { id, reply } => {
            let closed = closed_line(alloc, line, *id, reply.answer)?;
            text.extend_from_slice(closed.as_bytes())?;
            add_packets(alloc, text, fact_in(reply.answer), reply.out.as_slice())
        }
    }
}

/// The number of the line of which the next one comes: what comes of cycles that are due is all of one line.
fn line_behind(line: u64, came: &Came) -> u64
    requires { line + 1 < 2 ^ 64 }
    ensures value { result ≡ line_behind_of line came.now }
    ensures next { result ≤ line + 1 }
{
    match came {
        Came::Unread(_) | Came::Answered { .. } => line + 1,
        Came::Due { .. } | Came::Closed { .. } => line,
    }
}

fn add_told(
    alloc: Global,
    text: &mut Vec<u8>,
    saved: u32,
    line: u64,
    came: &Came,
) -> Result<(), AllocError>
    ensures { OnOk result (text.new.items ≡ text.old.items ++ told_text saved line came.now) }
{
    if may_tell(saved, came) {
        add_came(alloc, text, line, came)
    } else {
        Ok(())
    }
}

fn add_cames(
    alloc: Global,
    text: &mut Vec<u8>,
    saved: u32,
    line: u64,
    cames: &[Came],
) -> Result<(), AllocError>
    requires { line + length cames.now < 2 ^ 64 }
    ensures { OnOk result (text.new.items ≡ text.old.items ++ cames_text_of saved line cames.now) }
{
    let mut number = line;
    for came in cames {
        add_told(alloc, text, saved, number, came)?;
        number = line_behind(number, came);
    }
    Ok(())
}

fn add_marks(alloc: Global, text: &mut Vec<u8>, marks: &[Note]) -> Result<(), AllocError>
    ensures { OnOk result (text.new.items ≡ text.old.items ++ flat_map mark_text marks.now) }
{
    for mark in marks {
        add_packets(
            alloc,
            text,
            fact_in(mark.reply.answer),
            mark.reply.out.as_slice(),
        )?;
    }
    Ok(())
}

/// What is written of what came of the lines from this number on, of which those answers are told whose facts are saved, and of
/// the marks of what was saved since.
pub(crate) fn step_text(
    alloc: Global,
    saved: u32,
    line: u64,
    cames: &[Came],
    marks: &[Note],
) -> Result<Vec<u8>, AllocError>
    requires { line + length cames.now < 2 ^ 64 }
    ensures { IfOk result (λ text. text.items ≡ step_text_of saved line cames.now marks.now) }
{
    let mut text = Vec::new(alloc);
    add_cames(alloc, &mut text, saved, line, cames)?;
    add_marks(alloc, &mut text, marks)?;
    Ok(text)
}
