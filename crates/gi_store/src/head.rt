//! The head that stands beside a book.

ghost use Rattle.std.specs.Prelude.{◌≡◌, ◌↔◌, IsTrue, [], ◌+◌, ◌++◌, ◌<◌, ◌≤◌, ◌^◌, drop, take, IfOk, IfSome, None, Some, codes, if◌then◌else◌, length, nat_lt};
ghost use Rattle.hex.specs.Hex.{encode_lower};
ghost use Rattle.gi_store.specs.Heads.{IsHead, digits, gone_on, head_of, head_text, number_in};

use crate::chain::{chain_from, first_link};
use crate::digest::Digest;
use gi_facts::Fact;
use std::alloc::{AllocError, Global};

/// How many facts of a book were saved, and the digest of their chain.
#[derive(Clone, Copy, Debug, PartialEq, Eq)]
pub struct Head {
    pub facts: u32,
    pub digest: Digest,
}

/// How many bytes the text of a head has.
pub const LENGTH: usize = 76;

fn digits_of(number: u32) -> [u8; 10]
    ensures { result ≡ digits 10 number }
{
    let mut digits = [b'0'; 10];
    let mut left = number;
    for place in (0..10).rev() {
        digits[place] = b'0' + (left % 10) as u8;
        left /= 10;
    }
    digits
}

fn put(text: &mut [u8], at: usize, part: &[u8])
    requires { at + length part.now ≤ length text.old }
    ensures { text.new ≡ take at text.old ++ part.now ++ drop (at + length part.now) text.old }
{
    text[at..at + part.len()].copy_from_slice(part);
}

fn line_of(digits: [u8; 10], digest: [u8; 64]) -> [u8; LENGTH]
    ensures { result ≡ digits ++ codes " " ++ digest ++ codes "\n" }
{
    let mut text = [b' '; LENGTH];
    put(&mut text, 0, &digits);
    put(&mut text, 11, &digest);
    text[75] = b'\n';
    text
}

/// What ten digits tell, where it is a number of facts.
fn number_of(digits: &[u8]) -> Option<u32>
    requires { length digits.now ≡ 10 }
    ensures { result ≡ (if nat_lt (number_in digits.now) 4294967296 then Some (number_in digits.now) else None) }
{
    let mut number = 0u64;
    for digit in digits {
        number = number * 10 + digit.saturating_sub(b'0') as u64;
    }
    if number < 1 << 32 {
        Some(number as u32)
    } else {
        None
    }
}

/// The head that these are the parts of.
fn parsed(number: &[u8], digest: &[u8]) -> Option<Head>
    requires { length number.now ≡ 10 }
    ensures { (head : _) → IsHead head → number.now ≡ digits 10 head.facts → digest.now ≡ encode_lower head.digest.bytes → result ≡ Some head }
{
    let facts = number_of(number)?;
    let digest = Digest::from_digits(digest)?;
    Some(Head { facts, digest })
}

impl Head {
    /// The head of no facts.
    pub fn new() -> Head
        ensures { result ≡ head_of [] }
    {
        Head {
            facts: 0,
            digest: first_link(),
        }
    }

    /// The head gone on by these facts, which were saved after those that it tells. It fails only for
    /// want of memory.
    pub fn then(&self, alloc: Global, facts: &[Fact]) -> Result<Head, AllocError>
        requires { self.now.facts + length facts.now < 2 ^ 32 }
        ensures { IfOk result (λ head. head ≡ gone_on self.now facts.now) }
    {
        Ok(Head {
            facts: self.facts + facts.len() as u32,
            digest: chain_from(alloc, self.digest, facts)?,
        })
    }

    /// The line that stands beside the book.
    pub fn text(&self) -> [u8; LENGTH]
        ensures { result ≡ head_text self.now }
    {
        line_of(digits_of(self.facts), self.digest.text())
    }

    fn is_text(&self, bytes: &[u8]) -> bool
        ensures { IsTrue result ↔ (bytes.now ≡ head_text self.now) }
    {
        bytes == self.text().as_slice()
    }

    /// The head that these bytes are the text of.
    pub fn read(bytes: &[u8]) -> Option<Head>
        ensures text { IfSome result (λ head. bytes.now ≡ head_text head) }
        ensures whole { (head : _) → IsHead head → bytes.now ≡ head_text head → result ≡ Some head }
    {
        if bytes.len() != LENGTH {
            return None;
        }
        let head = parsed(&bytes[..10], &bytes[11..75])?;
        if head.is_text(bytes) {
            Some(head)
        } else {
            None
        }
    }
}
