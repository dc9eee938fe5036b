ghost use Rattle.std.specs.Prelude.{◌≡◌, ◌≤◌, IfOk};
ghost use Rattle.gi_messages.specs.Limits.{most_parts};
ghost use Rattle.gi_messages.specs.declared.message.Message.TheVariants as messages;
ghost use Rattle.gi_parts.specs.Splitting.{parts_of_whole};
ghost use Rattle.gi_desk.specs.Messages.{order_of, order_part, orders_of};

use gi_cycles::Frozen;
use gi_messages::{Delord, Message};
use gi_pairs::Code;
use gi_parts::{part_of_table, parts_for};
use std::alloc::{AllocError, Global};

/// In how many messages an order goes out.
fn parts_of(cycle: &Frozen) -> u8
    ensures value { result ≡ parts_of_whole (order_of cycle.now) }
    ensures from { 1 ≤ result }
    ensures to { result ≤ most_parts }
{
    parts_for(cycle.own().rows().len())
}

/// The message of this number, from 1.
fn order(alloc: Global, point: Code, cycle: &Frozen, part: u8) -> Result<Message, AllocError>
    requires { 1 ≤ part }
    ensures { IfOk result (λ message. message ≡ messages.Delord (order_part point cycle.now part)) }
{
    let id = cycle.id();
    Ok(Message::Delord(Delord {
        point,
        day: id.day,
        cycle: id.cycle,
        parts: parts_of(cycle),
        part,
        processed: part_of_table(alloc, cycle.own(), part)?,
    }))
}

/// The order of a closed cycle at the interconnection point, its frozen table: the messages that
/// carry it, in order. They are one up to 1,000 rows, else one for each 1,000 rows.
pub fn order_for(alloc: Global, point: Code, cycle: &Frozen) -> Result<Vec<Message>, AllocError>
    ensures { IfOk result (λ messages. messages.items ≡ orders_of point cycle.now) }
{
    let parts = parts_of(cycle);
    let mut messages = Vec::with_capacity(alloc, usize::from(parts))?;
    for before in 0..parts {
        messages.push(order(alloc, point, cycle, before + 1)?)?;
    }
    Ok(messages)
}
