//! What a reader holds of what it is to give.

ghost use Rattle.std.specs.Prelude.{◌≡◌, ◌<◌, ◌≤◌, ◌++◌, [], IfOk, MatchOption, None, OnErr, OnOk, List, true, false, length, take, drop};
ghost use Rattle.gi_clock.specs.Handing.{Came, has_feed, open_line, told, whole_lines};
ghost use Rattle.gi_clock.specs.HeldRepr.{given_of};

use crate::rest::Rest;
use gi_text::LINE_FEED;
use memchr::memrchr;
use std::alloc::{AllocError, Global};
use std::mem;

/// A line from beside the input, or none, and bytes of the input, or none, of which nothing is told yet.
#[derive(Drop)]
pub(crate) struct Piece {
    pub(crate) line: Vec<u8>,
    pub(crate) bytes: Vec<u8>,
}

/// What is to be given next, the bytes of the input behind it that no line feed has ended yet, and what came behind them.
#[derive(Drop)]
pub(crate) struct Held {
    pub(crate) rest: Rest,
    pub(crate) begun: Vec<u8>,
    pub(crate) piece: Option<Piece>,
}

/// How many bytes there are up to the last line feed.
fn whole(bytes: &[u8]) -> Option<usize>
    ensures { MatchOption result (has_feed bytes.now ≡ false) (λ at. (has_feed bytes.now ≡ true) × (at ≤ length bytes.now)
        × (take at bytes.now ≡ whole_lines bytes.now) × (drop at bytes.now ≡ open_line bytes.now)) }
{
    match memrchr(LINE_FEED, bytes) {
        Some(at) => Some(at + 1),
        None => None,
    }
}

/// All of these bytes, one behind the other.
fn joined(alloc: Global, first: &[u8], second: &[u8], third: &[u8]) -> Result<Vec<u8>, AllocError>
    ensures { IfOk result (λ all. all.items ≡ first.now ++ (second.now ++ third.now)) }
{
    let mut all = Vec::new(alloc);
    all.extend_from_slice(first)?;
    all.extend_from_slice(second)?;
    all.extend_from_slice(third)?;
    Ok(all)
}

/// What is given of a piece with a line feed, up to behind which there are so many bytes, and what is begun behind it.
fn parts(
    alloc: Global,
    begun: &[u8],
    piece: &Piece,
    at: usize,
) -> Result<(Vec<u8>, Vec<u8>), AllocError>
    requires within { at ≤ length piece.now.bytes.items }
    ensures given { IfOk result (λ t. t.0.items ≡ piece.now.line.items ++ (begun.now ++ take at piece.now.bytes.items)) }
    ensures begun { IfOk result (λ t. t.1.items ≡ drop at piece.now.bytes.items) }
{
    let given = joined(alloc, &piece.line, begun, &piece.bytes[..at])?;
    let begun = Vec::from_slice(alloc, &piece.bytes[at..])?;
    Ok((given, begun))
}

impl Held {
    pub(crate) fn new(alloc: Global) -> Held
        ensures { (events : List Came) → given_of result events ≡ told [] events }
    {
        Held {
            rest: Rest::of(Vec::new(alloc)),
            begun: Vec::new(alloc),
            piece: None,
        }
    }

    /// Gives of what is to be given, as much as there is room for.
    pub(crate) fn give(&mut self, buf: &mut [u8]) -> usize
        requires held { 0 < length self.old.rest }
        requires room { 0 < length buf.old }
        ensures some { 0 < result }
        ensures room { result ≤ length buf.new }
        ensures same { length buf.new ≡ length buf.old }
        ensures given { (events : List Came) → given_of self.old events ≡ take result buf.new ++ given_of self.new events }
    {
        let count = self.rest.as_slice().len().min(buf.len());
        self.rest.hand_on(count, buf);
        count
    }

    /// Tells the piece that came: its line, and what it made whole of the input, is to be given next. Where memory is
    /// out, it is told later.
    pub(crate) fn tell(&mut self, alloc: Global) -> Result<(), AllocError>
        requires none { self.old.rest ≡ [] }
        ensures { (events : List Came) → given_of self.new events ≡ given_of self.old events }
    {
        let Some(piece) = self.piece.take() else {
            return Ok(());
        };
        match whole(&piece.bytes) {
            Some(at) => match parts(alloc, &self.begun, &piece, at) {
                Ok((given, begun)) => {
                    self.rest = Rest::of(given);
                    self.begun = begun;
                    Ok(())
                }
                Err(fault) => {
                    self.piece = Some(piece);
                    Err(fault)
                }
            },
            None => match self.begun.extend_from_slice(&piece.bytes) {
                Ok(()) => {
                    self.rest = Rest::of(piece.line);
                    Ok(())
                }
                Err(fault) => {
                    self.piece = Some(piece);
                    Err(fault)
                }
            },
        }
    }

    /// Whether bytes of the input are begun that no line feed has ended.
    pub(crate) fn has_begun(&self) -> bool
        ensures none { result ≡ false → self.now.begun.items ≡ [] }
        ensures some { result ≡ true → 0 < length self.now.begun.items }
    {
        !self.begun.is_empty()
    }

    /// Where the input is over, what no line feed ended is to be given next.
    pub(crate) fn end(&mut self, alloc: Global)
        requires none { self.old.rest ≡ [] }
        requires over { self.old.piece ≡ None }
        ensures { given_of self.new [] ≡ given_of self.old [] }
    {
        self.rest = Rest::of(mem::replace(&mut self.begun, Vec::new(alloc)));
    }
}
