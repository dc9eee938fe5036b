ghost use Rattle.std.specs.Prelude.{◌≡◌, ◌↔◌, Some, OkIff, IsTrue, codes, nat_eq};
ghost use Rattle.std.proofs.Common.{rules};
ghost use Rattle.std.specs.Cmp.{partial_order_from_own_ties};
ghost use Rattle.std.specs.Cmp.Rules.{comparing};
ghost use Rattle.std.specs.Cmp.Lexicographic.{pointwise, slice_cmp};
ghost use Rattle.std.specs.Ordering.{nat_cmp, as_partial_cmp};
ghost use Rattle.gi_pairs.specs.Code.{IsCode, is_character};

use std::cmp::Ordering;
use std::error::Error;
use std::fmt;
use std::marker::Model;
use std::str::FromStr;

/// A text that is no code.
#[derive(Clone, Copy, Debug, PartialEq, Eq)]
pub struct CodeText;

impl fmt::Display for CodeText {
    ghost output = { λ _. Some (codes "CodeText") };

    fn fmt<W: fmt::Write>(&self, f: &mut fmt::Formatter<W>) -> fmt::Result {
        f.write_str("CodeText")
    }
}

impl Error for CodeText {}

/// The code of a portfolio or of an interconnection point: 1 to 16 characters of `A` to `Z`, `0`
/// to `9` and `-`, ordered by bytes.
#[derive(Clone, Copy)]
pub struct Code {
    bytes: [u8; 16],
    len: u8,
}

impl Model for Code {
    ghost use Rattle.std.specs.Prelude.{List, ℕ, take};
    ghost use Rattle.gi_pairs.specs.Code.{CodeInvariant};

    ghost Value = { List ℕ };

    ghost use Rattle.gi_pairs.specs.CodeRepr.{kept_of, kept_is};

    ghost view = { λ c. take c.len c.bytes };

    ghost invariant = { λ c. CodeInvariant c.bytes c.len };

    ghost inverse = { kept_of };

    ghost inverse_ok = { kept_is };
}

fn is_code_character(byte: u8) -> bool
    ensures { result ≡ is_character byte }
{
    matches!(byte, b'A'..=b'Z' | b'0'..=b'9' | b'-')
}

fn is_code(bytes: &[u8]) -> bool
    ensures { IsTrue result ↔ IsCode bytes.now }
{
    !bytes.is_empty() && bytes.len() <= 16 && bytes.iter().all(|byte| is_code_character(*byte))
}

impl Code {
    /// The code that the text is, or `CodeText` where it is none.
    pub fn read(text: &str) -> Result<Code, CodeText>
        ensures { OkIff result (IsCode text.now) text.now }
    {
        let text = text.as_bytes();
        if !is_code(text) {
            return Err(CodeText);
        }
        let mut bytes = [0; 16];
        bytes[..text.len()].copy_from_slice(text);
        Ok(Code {
            bytes,
            len: text.len() as u8,
        })
    }

    pub(crate) fn as_bytes(&self) -> &[u8]
        ensures value { result.now ≡ self.now }
        ensures code { IsCode result.now }
    {
        &self.bytes[..usize::from(self.len)]
    }

    /// The text of the code.
    pub fn as_str(&self) -> &str
        ensures value { result.now ≡ self.now }
        ensures code { IsCode self.now }
    {
        str::from_utf8(self.as_bytes()).unwrap()
    }

    /// Every code is one.
    pub fn reveal_invariant(&self)
        ensures { IsCode self.now }
    {
        let _ = self.as_bytes();
    }
}

/// Reads a code as `Code::read` does.
impl FromStr for Code {
    type Err = CodeText;

    ghost from_str_gives = { λ text result. OkIff result (IsCode text) text };

    fn from_str(text: &str) -> Result<Code, CodeText> {
        Code::read(text)
    }
}

impl fmt::Display for Code {
    ghost output = { λ c. Some c };

    fn fmt<W: fmt::Write>(&self, f: &mut fmt::Formatter<W>) -> fmt::Result {
        f.write_str(self.as_str())
    }
}

impl fmt::Debug for Code {
    fn fmt<W: fmt::Write>(&self, f: &mut fmt::Formatter<W>) -> fmt::Result {
        fmt::Display::fmt(self, f)
    }
}

impl PartialEq for Code {
    ghost eq = { pointwise nat_eq };

    ghost laws = { Prim.search (comparing, rules) };

    fn eq(&self, other: &Code) -> bool {
        self.as_bytes() == other.as_bytes()
    }
}

impl Eq for Code {
    ghost laws = { Prim.search (comparing, rules) };
}

impl PartialOrd for Code {
    ghost partial_cmp = { as_partial_cmp (slice_cmp nat_cmp) };

    ghost laws = { partial_order_from_own_ties (Prim.search (comparing, rules)) (Prim.search (comparing, rules)) };

    fn partial_cmp(&self, other: &Code) -> Option<Ordering> {
        Some(self.cmp(other))
    }
}

impl Ord for Code {
    ghost cmp = { slice_cmp nat_cmp };

    ghost total = { Prim.search (comparing, rules) };

    ghost matches_partial_cmp = { Prim.search (comparing, rules) };

    ghost matches_eq = { Prim.search (comparing, rules) };

    fn cmp(&self, other: &Code) -> Ordering {
        self.as_bytes().cmp(other.as_bytes())
    }
}
