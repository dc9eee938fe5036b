//! Refused submissions, counted by portfolio.

ghost use Rattle.std.specs.Prelude.{◌≡◌, IfOk, string_bytes};
ghost use Rattle.gi_reports.specs.Refused.{refused_counts as counts_of, refused_line as line_of, refused_lines as lines_of};

use crate::columns::{LeftInSixteen, RightInSix};
use crate::submitter::Submitter;
use gi_pairs::Code;
use indexmap::IndexMap;
use std::alloc::{AllocError, Global};

fn counted(
    alloc: Global,
    submissions: &[Option<Code>],
) -> Result<IndexMap<Submitter, u64>, AllocError>
    ensures { IfOk result (λ counts. counts.entries ≡ counts_of submissions.now) }
{
    let mut counts = IndexMap::new(alloc);
    for code in submissions {
        let who = Submitter { code: *code };
        let before = counts.get(&who).copied().unwrap_or(0);
        counts.insert(who, before + 1)?;
    }
    Ok(counts)
}

/// The portfolios of refused submissions, each once, in the order of their first ones, with the
/// number of their refused submissions. `None` stands for the submissions that cannot be read.
pub fn refused_counts(
    alloc: Global,
    submissions: &[Option<Code>],
) -> Result<Vec<(Option<Code>, u64)>, AllocError>
    ensures { IfOk result (λ counts. counts.items ≡ counts_of submissions.now) }
{
    let counts = counted(alloc, submissions)?;
    let mut groups = Vec::with_capacity(alloc, counts.len())?;
    for (who, count) in counts {
        groups.push((who.code, count))?;
    }
    Ok(groups)
}

fn refused_line(alloc: Global, code: &Option<Code>, count: u64) -> Result<String, AllocError>
    ensures { IfOk result (λ line. string_bytes line ≡ line_of (code.now, count)) }
{
    let name = LeftInSixteen { code: *code };
    let count = RightInSix { number: count };
    format!(in alloc; "{name} {count}\n")
}

/// A line for each portfolio with refused submissions, in the order of their first ones: its code,
/// left in 16 places, and the number of its refused submissions, right in 6. Those that cannot be
/// read stand under `?`.
pub fn refused_report(alloc: Global, submissions: &[Option<Code>]) -> Result<String, AllocError>
    ensures { IfOk result (λ text. string_bytes text ≡ lines_of (counts_of submissions.now)) }
{
    let counts = refused_counts(alloc, submissions)?;
    let mut text = String::new(alloc);
    for (code, count) in &counts {
        let line = refused_line(alloc, code, *count)?;
        text.push_str(line.as_str())?;
    }
    Ok(text)
}
