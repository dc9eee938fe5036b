//! The longest runs of hours that have the same value.

ghost use Rattle.std.specs.Prelude.{◌≡◌, ◌<◌, ◌≤◌, IfOk, length};
ghost use Rattle.gi_picture.specs.Runs.{is_same as is_same_of, longer as longer_of, next as next_of, run_of_one, runs as runs_of};

use crate::run::Run;
use std::alloc::{AllocError, Global};

/// Whether both have the same value, or both none.
pub(crate) fn is_same(a: Option<u64>, b: Option<u64>) -> bool
    ensures { result ≡ is_same_of a b }
{
    match (a, b) {
        (Some(a), Some(b)) => a == b,
        (None, None) => true,
        _ => false,
    }
}

fn longer(run: Run) -> Run
    requires { run.behind < 255 }
    ensures { result ≡ longer_of run }
{
    Run {
        value: run.value,
        previous: run.previous,
        before: run.before,
        behind: run.behind + 1,
    }
}

fn next(run: Run, value: Option<u64>) -> Run
    requires { run.behind < 255 }
    ensures { result ≡ next_of run value }
{
    Run {
        value,
        previous: run.value,
        before: run.behind,
        behind: run.behind + 1,
    }
}

fn run_of(value: Option<u64>) -> Run
    ensures { result ≡ run_of_one value }
{
    Run {
        value,
        previous: None,
        before: 0,
        behind: 1,
    }
}

/// The longest runs of equal values, in order.
#[tactic(auto, unfolding(crate::specs::Runs::runs))]
pub fn runs(alloc: Global, values: &[Option<u64>]) -> Result<Vec<Run>, AllocError>
    requires { length values.now ≤ 250 }
    ensures { IfOk result (λ runs. runs.items ≡ runs_of values.now) }
{
    let mut found = Vec::new(alloc);
    let Some((first, more)) = values.split_first() else {
        return Ok(found);
    };
    let mut run = run_of(*first);
    for value in more {
        if is_same(run.value, *value) {
            run = longer(run);
        } else {
            found.push(run)?;
            run = next(run, *value);
        }
    }
    found.push(run)?;
    Ok(found)
}
