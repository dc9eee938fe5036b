//! What a move makes of the messages that wait.

ghost use Rattle.std.specs.Prelude.{◌≡◌, ◌<◌, ◌≤◌, IfOk, OnErr, OnOk, length};
ghost use Rattle.std.specs.Option.{option_map};
ghost use Rattle.std.specs.VecDeque.{deque_len};
ghost use Rattle.gi_carrier.specs.Carrier.{given_by, left_by};
ghost use Rattle.gi_carrier.specs.Kept.{bytes_of, messages_of};
ghost use Rattle.gi_carrier.specs.declared.moves.Move.TheVariants.{Repeat};

use crate::moves::Move;
use std::alloc::AllocError;
use std::collections::VecDeque;

fn copy_of_first(waiting: &VecDeque<Vec<u8>>) -> Result<Option<Vec<u8>>, AllocError>
    ensures { IfOk result (λ copy. option_map bytes_of copy ≡ given_by Repeat (messages_of waiting.now)) }
{
    match waiting.front() {
        Some(first) => Ok(Some(Vec::from_slice(*waiting.allocator(), first)?)),
        None => Ok(None),
    }
}

pub(crate) fn make(
    waiting: &mut VecDeque<Vec<u8>>,
    next: Move,
) -> Result<Option<Vec<u8>>, AllocError>
    requires { 0 < deque_len waiting.now }
    ensures given { IfOk result (λ out. option_map bytes_of out ≡ given_by next (messages_of waiting.old)) }
    ensures left { OnOk result (messages_of waiting.new ≡ left_by next (messages_of waiting.old)) }
    ensures few { length waiting.new.items ≤ length waiting.old.items }
    ensures unchanged { OnErr result (waiting.new.items ≡ waiting.old.items) }
    ensures repeats { OnErr result (next ≡ Repeat) }
{
    Ok(match next {
        Move::Pass => waiting.pop_front(),
        Move::Drop => {
            waiting.pop_front();
            None
        }
        Move::Repeat => copy_of_first(waiting)?,
        Move::Hold => {
            waiting.rotate_left(1);
            None
        }
    })
}
