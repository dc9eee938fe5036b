ghost use Rattle.std.specs.Prelude.{◌≡◌, ◌≤◌, IfOk};
ghost use Rattle.gi_messages.specs.Limits.{most_parts};
ghost use Rattle.gi_messages.specs.declared.message.Message.TheVariants as messages;
ghost use Rattle.gi_parts.specs.Splitting.{parts_of_whole};
ghost use Rattle.gi_desk.specs.Messages.{response_of, response_part, responses_of};

use gi_cycles::Matched;
use gi_messages::{Delres, Message};
use gi_pairs::Code;
use gi_parts::{part_of_table, parts_for};
use std::alloc::{AllocError, Global};

/// In how many messages a response goes out.
fn parts_of(cycle: &Matched) -> u8
    ensures value { result ≡ parts_of_whole (response_of cycle.now) }
    ensures from { 1 ≤ result }
    ensures to { result ≤ most_parts }
{
    parts_for(cycle.confirmed().rows().len())
}

/// The message of this number, from 1.
fn response(alloc: Global, point: Code, cycle: &Matched, part: u8) -> Result<Message, AllocError>
    requires { 1 ≤ part }
    ensures { IfOk result (λ message. message ≡ messages.Delres (response_part point cycle.now part)) }
{
    let id = cycle.id();
    Ok(Message::Delres(Delres {
        point,
        day: id.day,
        cycle: id.cycle,
        parts: parts_of(cycle),
        part,
        processed: part_of_table(alloc, cycle.own(), part)?,
        confirmed: part_of_table(alloc, cycle.confirmed(), part)?,
    }))
}

/// The response of a matched cycle at the interconnection point, its frozen table and the confirmed
/// one: the messages that carry it, in order. They are one up to 1,000 confirmed rows, else one for
/// each 1,000 of these.
pub fn response_for(alloc: Global, point: Code, cycle: &Matched) -> Result<Vec<Message>, AllocError>
    ensures { IfOk result (λ messages. messages.items ≡ responses_of point cycle.now) }
{
    let parts = parts_of(cycle);
    let mut messages = Vec::with_capacity(alloc, usize::from(parts))?;
    for before in 0..parts {
        messages.push(response(alloc, point, cycle, before + 1)?)?;
    }
    Ok(messages)
}
