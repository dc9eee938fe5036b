//! What `book` tells of a book.

ghost use Rattle.std.specs.Prelude.{◌≡◌, ◌↔◌, IfErr, IfOk, IsTrue, OnOk, length, filter, option_map, string_bytes};
ghost use Rattle.gi_command_line.specs.Asked.{expected_words};
ghost use Rattle.gi_commands.specs.Owned.{copy_state};
ghost use Rattle.std.specs.List.{flat_map};
ghost use Rattle.gi_commands.specs.Contents.{contents_text, contracted as contracted_by, counts_text, is_closing as closes, is_meeting as meets, owner_word, portfolios_in, room_text};
ghost use Rattle.gi_commands.specs.Contents.{AreExpected, HasContents, HasExpected, IsNoContents, IsSound, IsUnsound};

use crate::fault::Fault;
use crate::replaying::replayed;
use gi_command_line::{BookQuestion, ExpectedFacts};
use gi_desk::{Fact, MOST_FACTS};
use gi_initiator::Initiating;
use gi_matcher::Matching;
use gi_pairs::{Code, Side};
use gi_processing::MOST_PORTFOLIOS;
use gi_reports::refused_counts;
use gi_store::{BookCopy, BookSource, Owner, digest_of};
use std::alloc::{AllocError, Global};

fn is_closing(fact: &Fact) -> bool
    ensures { result ≡ closes fact.now }
{
    matches!(fact, Fact::Closed { .. })
}

fn is_meeting(fact: &Fact) -> bool
    ensures { result ≡ meets fact.now }
{
    matches!(fact, Fact::Met { .. })
}

fn closings(facts: &[Fact]) -> usize
    ensures { result ≡ length (filter closes facts.now) }
{
    facts.iter().filter(|fact| is_closing(fact)).count()
}

fn meetings(facts: &[Fact]) -> usize
    ensures { result ≡ length (filter meets facts.now) }
{
    facts.iter().filter(|fact| is_meeting(fact)).count()
}

fn contracted(alloc: Global, facts: &[Fact]) -> Result<Vec<Option<Code>>, AllocError>
    ensures { IfOk result (λ portfolios. portfolios.items ≡ flat_map contracted_by facts.now) }
{
    let mut portfolios = Vec::new(alloc);
    for fact in facts {
        if let Fact::Contracted(contract) = fact {
            portfolios.push(Some(contract.portfolio))?;
        }
    }
    Ok(portfolios)
}

/// The portfolios of contracts are counted as those of refused submissions are: each once.
fn portfolios(alloc: Global, facts: &[Fact]) -> Result<usize, AllocError>
    ensures { IfOk result (λ portfolios. portfolios ≡ portfolios_in facts.now) }
{
    let contracted = contracted(alloc, facts)?;
    let counts = refused_counts(alloc, &contracted)?;
    Ok(counts.as_slice().len())
}

#[tactic(auto, unfolding(crate::specs::Contents::owner_word))]
fn owner_text(alloc: Global, owner: Option<Owner>) -> Result<String, AllocError>
    ensures { IfOk result (λ text. string_bytes text ≡ owner_word owner) }
{
    match owner {
        Some(owner) => format!(in alloc; "{owner}"),
        None => format!(in alloc; "?"),
    }
}

#[tactic(auto, unfolding(crate::specs::Contents::counts_text))]
fn counts(alloc: Global, facts: &[Fact]) -> Result<String, AllocError>
    ensures { IfOk result (λ text. string_bytes text ≡ counts_text facts.now) }
{
    let (count, digest) = (facts.len(), digest_of(alloc, facts)?);
    let (closed, confirmed) = (closings(facts), meetings(facts));
    format!(in alloc; "facts {count}\ndigest {digest}\nclosed {closed}\nconfirmed {confirmed}\n")
}

#[tactic(auto, unfolding(crate::specs::Contents::room_text))]
fn room(alloc: Global, facts: &[Fact]) -> Result<String, AllocError>
    ensures { IfOk result (λ text. string_bytes text ≡ room_text facts.now) }
{
    let more = MOST_FACTS.saturating_sub(facts.len());
    let portfolios = MOST_PORTFOLIOS.saturating_sub(portfolios(alloc, facts)?);
    format!(in alloc; "room {more} {portfolios}\n")
}

/// A line each of whose the book is, how many facts it has and their digest, how many cycles are closed and
/// confirmed, what room is left, and how long the log beside it is.
fn text_of(alloc: Global, copy: &BookCopy) -> Result<String, AllocError>
    ensures { IfOk result (λ text. string_bytes text ≡ contents_text (copy_state copy.now)) }
{
    let owner = owner_text(alloc, copy.owner)?;
    let counts = counts(alloc, &copy.facts)?;
    let room = room(alloc, &copy.facts)?;
    let log = copy.log;
    format!(in alloc; "owner {owner}\n{counts}{room}log {log}\n")
}

fn are_first(alloc: Global, facts: &[Fact], expected: ExpectedFacts<'_>) -> Result<bool, AllocError>
    ensures { IfOk result (λ is. IsTrue is ↔ AreExpected facts.now (expected_words expected.entry)) }
{
    let Some(first) = facts.get(..expected.facts as usize) else {
        return Ok(false);
    };
    let digest = digest_of(alloc, first)?;
    let digest = format!(in alloc; "{digest}")?;
    Ok(digest.as_str() == expected.digest)
}

/// Whether the first facts are those that are expected, if any are.
pub(crate) fn has_expected(
    alloc: Global,
    facts: &[Fact],
    expected: Option<ExpectedFacts<'_>>,
) -> Result<bool, AllocError>
    ensures { IfOk result (λ has. IsTrue has ↔ HasExpected facts.now (option_map expected_words expected.entry)) }
{
    match expected {
        Some(expected) => are_first(alloc, facts, expected),
        None => Ok(true),
    }
}

/// The facts of a book that says whose it is make a desk. `BadFact` for the first that no desk of its side and
/// point records after those before it, and `OutOfMemory`.
fn sound(alloc: Global, copy: BookCopy) -> Result<(), Fault>
    ensures sound { OnOk result (IsSound (copy_state copy)) }
    ensures fault { IfErr result (IsUnsound (copy_state copy)) }
{
    let BookCopy { owner, facts, .. } = copy;
    let Some(Owner { side, point }) = owner else {
        drop(facts);
        return Ok(());
    };
    match side {
        Side::I => drop(replayed::<Initiating>(alloc, point, facts)?),
        Side::M => drop(replayed::<Matching>(alloc, point, facts)?),
    }
    Ok(())
}

/// What is told of a book, and whether its first facts are those that were expected.
#[derive(Drop)]
pub(crate) struct Contents {
    pub(crate) text: String,
    pub(crate) is_expected: bool,
}

/// Those of the book under a name.
pub(crate) fn named_contents<B: BookSource>(
    alloc: Global,
    books: &B,
    question: BookQuestion<'_>,
) -> Result<Contents, Fault>
    ensures contents { IfOk result (λ it. HasContents (B.gives books.now question.entry.file.now) (option_map expected_words question.entry.expected) (string_bytes it.text) it.is_expected) }
    ensures fault { IfErr result (IsNoContents (B.gives books.now question.entry.file.now)) }
{
    let copy = books.read(question.file)?;
    let text = text_of(alloc, &copy)?;
    let is_expected = has_expected(alloc, &copy.facts, question.expected)?;
    match sound(alloc, copy) {
        Ok(()) => Ok(Contents { text, is_expected }),
        // (handed to drop, by one call: going out of scope here would be checked field by field on each way out)
        Err(fault) => {
            drop(text);
            Err(fault)
        }
    }
}
