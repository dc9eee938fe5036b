//! What the lines of a script say, field by field.

use crate::moves::add_moves;
use crate::scripts::escapes::add_escaped;
use gi_calls::Answer;
use gi_desk::Call;
use gi_pairs::{CycleId, Side};
use gi_script::Instruction;

/// Adds a submission, with its body in brackets.
fn add_submission(body: &[u8], text: &mut Answer) {
    let Ok(body) = str::from_utf8(body) else {
        return text.add(" submit bytes");
    };
    text.add(" submit <");
    add_escaped(body, text);
    text.add(">");
}

/// Adds a name and a cycle.
fn add_cycle(name: &str, id: CycleId, text: &mut Answer) {
    text.add(name);
    text.word(id.day);
    text.word(id.cycle);
}

/// Adds a call of a desk, behind a space.
fn add_call(call: &Call, text: &mut Answer) {
    match call {
        Call::Contract(of) => {
            let (firm, interruptible) = (of.firm.value(), of.interruptible.value());
            text.add(" contract");
            text.word(of.portfolio);
            text.word(of.day);
            text.word(of.direction);
            text.word(firm);
            text.word(interruptible);
        }
        Call::Notice(of) => {
            text.add(" notice");
            text.word(of.day);
            text.word(of.direction);
            text.word(of.first);
            text.word(of.last);
            text.word(of.firm);
            text.word(of.interruptible);
        }
        Call::Submit(body) => add_submission(body.as_slice(), text),
        Call::Close { id, rule } => {
            add_cycle(" close", *id, text);
            if rule.number() == 1 {
                text.add(" 1");
            }
        }
        Call::Resend(id) => add_cycle(" resend", *id, text),
        Call::Halt => text.add(" halt"),
        Call::Deliver(_) => text.add(" deliver a body"),
        Call::MarkSaved { .. } => text.add(" mark saved"),
    }
}

/// Adds a side, what it is asked, and how many or which.
fn add_asked(side: Side, asked: &str, number: u32, text: &mut Answer) {
    text.word(side);
    text.add(asked);
    text.word(number);
}

/// Adds an instruction, behind a space where its line has begun.
pub fn add_instruction(instruction: &Instruction, text: &mut Answer) {
    match instruction {
        Instruction::Call { side, call } => {
            text.word(side);
            add_call(call, text);
        }
        Instruction::Save { side, count } => add_asked(*side, " save", *count, text),
        Instruction::Deliver { side, packet } => add_asked(*side, " deliver", *packet, text),
        Instruction::Restart { side, keep } => add_asked(*side, " restart", *keep, text),
        Instruction::Plan { side, plan } => {
            text.word("plan");
            text.word(side);
            text.add(" ");
            add_moves(plan, text);
        }
        Instruction::Carry { side } => {
            text.word(side);
            text.add(" carry");
        }
    }
}
