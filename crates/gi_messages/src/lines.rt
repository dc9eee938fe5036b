ghost use Rattle.std.specs.Prelude.{◌≡◌, IfOk};
ghost use Rattle.std.specs.Cmp.Lexicographic.{lists_equiv, lists_per, pointwise};

use crate::message_line::MessageLine;
use std::alloc::AllocError;
use std::marker::Model;

/// Lines of a message, in the order in which they came.
#[derive(Drop)]
pub struct Lines<T> {
    lines: Vec<T>,
}

impl<T> Model for Lines<T> {
    ghost use Rattle.std.specs.Prelude.{List};

    ghost Value = { List T };

    ghost view = { λ l. l.lines.items };
}

impl<T> From<Vec<T>> for Lines<T> {
    ghost from_gives = { λ list lines. lines ≡ list.items };

    fn from(lines: Vec<T>) -> Lines<T> {
        Lines { lines }
    }
}

impl<T> Lines<T> {
    /// The lines, in order.
    pub fn as_slice(&self) -> &[T]
        ensures { result.now ≡ self.now }
    {
        &self.lines
    }

    /// The lines, in order, with the memory that they were given in.
    pub fn into_vec(self) -> Vec<T>
        ensures { result.items ≡ self }
    {
        self.lines
    }
}

impl<T: MessageLine> Lines<T> {
    /// Equal lines, in the same order.
    pub fn copy(&self) -> Result<Lines<T>, AllocError>
        ensures { IfOk result (λ lines. lines ≡ self.now) }
    {
        let mut copies = Vec::with_capacity(*self.lines.allocator(), self.lines.len())?;
        for line in &self.lines {
            copies.push(line.copy()?)?;
        }
        Ok(Lines::from(copies))
    }
}

impl<T: PartialEq> PartialEq for Lines<T> {
    ghost eq = { pointwise T.eq };

    ghost laws = { lists_per T.laws };

    fn eq(&self, other: &Lines<T>) -> bool {
        self.as_slice() == other.as_slice()
    }
}

impl<T: Eq> Eq for Lines<T> {
    ghost laws = { lists_equiv T.Eq.laws };
}
