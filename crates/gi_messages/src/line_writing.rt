//! Writing lines as text.

ghost use Rattle.gi_messages.specs.Adding.{Adds, AddsMember};
ghost use Rattle.gi_messages.specs.Writing.{lines_data};
ghost use Rattle.gi_messages.specs.declared.key.Key.TheVariants.{Lines as LinesKey};

use crate::key::Key;
use crate::members::put_key;
use crate::message_line::MessageLine;
use json::Writer;
use std::alloc::AllocError;

fn put_each_line<T: MessageLine>(out: &mut Writer, lines: &[T]) -> Result<(), AllocError>
    ensures { Adds result out.old out.new (lines_data T.written lines.now) }
{
    out.begin_array()?;
    for line in lines {
        line.put(out)?;
    }
    out.end_array()
}

/// Adds the array of the lines at the key `lines`, in their order.
pub fn put_lines<T: MessageLine>(out: &mut Writer, lines: &[T]) -> Result<(), AllocError>
    ensures { AddsMember result out.old out.new LinesKey (lines_data T.written lines.now) }
{
    put_key(out, Key::Lines)?;
    put_each_line(out, lines)
}
