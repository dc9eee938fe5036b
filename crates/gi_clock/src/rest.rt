//! Bytes that are handed on from the front.

ghost use Rattle.std.specs.Prelude.{◌≡◌, ◌≤◌, ◌<◌, [], true, false, length, take, drop};

use std::marker::Model;

/// What is still to be handed on of some bytes.
#[derive(Drop)]
pub(crate) struct Rest {
    bytes: Vec<u8>,
    at: usize,
}

impl Model for Rest {
    ghost use Rattle.std.specs.Prelude.{List, ℕ, ◌≤◌, drop, length};

    ghost Value = { List ℕ };

    ghost view = { λ r. drop r.at r.bytes.items };

    ghost invariant = { λ r. r.at ≤ length r.bytes.items };
}

impl Rest {
    pub(crate) fn of(bytes: Vec<u8>) -> Rest
        ensures { result ≡ bytes.items }
    {
        Rest { bytes, at: 0 }
    }

    pub(crate) fn as_slice(&self) -> &[u8]
        ensures { result.now ≡ self.now }
    {
        &self.bytes[self.at..]
    }

    pub(crate) fn is_empty(&self) -> bool
        ensures none { result ≡ true → self.now ≡ [] }
        ensures some { result ≡ false → 0 < length self.now }
    {
        self.at == self.bytes.len()
    }

    /// Hands on so many bytes.
    pub(crate) fn hand_on(&mut self, count: usize, buf: &mut [u8])
        requires held { count ≤ length self.old }
        requires room { count ≤ length buf.old }
        ensures handed { take count buf.new ≡ take count self.old }
        ensures room { length buf.new ≡ length buf.old }
        ensures rest { self.new ≡ drop count self.old }
    {
        buf[..count].copy_from_slice(&self.bytes[self.at..self.at + count]);
        self.at += count;
    }
}
