ghost use Rattle.std.specs.Prelude.{◌≡◌, IfOk, IfSome, None, Some, string_bytes};
ghost use Rattle.gi_pairs.specs.Code.{IsCode};
ghost use Rattle.gi_store.specs.Owner.{IsOwnerText};

use gi_pairs::{Code, Side};
use std::alloc::{AllocError, Global};
use std::fmt;

/// Whose a book is: a side's, at a point. It prints as `I BORDER-1`.
#[derive(Clone, Copy, Debug, PartialEq, Eq)]
pub struct Owner {
    pub side: Side,
    pub point: Code,
}

fn code_of(bytes: &[u8]) -> Option<Code>
    ensures code { IfSome result (λ code. (code ≡ bytes.now) × IsCode bytes.now) }
    ensures none { result ≡ None → ¬ IsCode bytes.now }
{
    let Ok(text) = str::from_utf8(bytes) else {
        return None;
    };
    Code::read(text).ok()
}

impl Owner {
    /// The owner whose printed form the text is.
    pub(crate) fn of_text(text: &[u8]) -> Option<Owner>
        ensures owner { IfSome result (IsOwnerText text.now) }
        ensures none { result ≡ None → (owner : _) → ¬ IsOwnerText text.now owner }
    {
        let (side, point) = match text {
            [b'I', b' ', point @ ..] => (Side::I, point),
            [b'M', b' ', point @ ..] => (Side::M, point),
            _ => return None,
        };
        let point = code_of(point)?;
        Some(Owner { side, point })
    }

    pub(crate) fn text(self, alloc: Global) -> Result<String, AllocError>
        ensures { IfOk result (λ text. IsOwnerText (string_bytes text) self) }
    {
        self.point.reveal_invariant();
        format!(in alloc; "{self}")
    }
}

impl fmt::Display for Owner {
    ghost use Rattle.gi_store.specs.Owner.{owner_text};

    ghost output = { λ owner. Some (owner_text owner) };

    fn fmt<W: fmt::Write>(&self, f: &mut fmt::Formatter<W>) -> fmt::Result {
        write!(f, "{} {}", self.side, self.point)
    }
}
