//! The longest runs of hours of a row that show the same.

ghost use Rattle.std.specs.Prelude.{◌≡◌, ◌<◌, ◌≤◌, IfOk, length};
ghost use Rattle.gi_day_tables.specs.FlowRuns.{flow_runs as flow_runs_of, longer as longer_of, run_of_one, same_amounts as same_amounts_of, shows_same as shows_same_of};
ghost use Rattle.gi_picture.specs.Runs.{is_same as is_same_of};

use crate::flow_hour::FlowHour;
use crate::flow_run::FlowRun;
use gi_picture::Amounts;
use std::alloc::{AllocError, Global};

fn same_cycle(a: Option<u8>, b: Option<u8>) -> bool
    ensures { result ≡ is_same_of a b }
{
    match (a, b) {
        (Some(a), Some(b)) => a == b,
        (None, None) => true,
        _ => false,
    }
}

fn same_amounts(a: Amounts, b: Amounts) -> bool
    ensures { result ≡ same_amounts_of a b }
{
    a.nominated == b.nominated
        && a.processed == b.processed
        && a.peers == b.peers
        && a.in_force == b.in_force
}

fn shows_same(a: FlowHour, b: FlowHour) -> bool
    ensures { result ≡ shows_same_of a b }
{
    same_cycle(a.shown, b.shown)
        && same_cycle(a.cycle, b.cycle)
        && same_amounts(a.amounts, b.amounts)
}

fn longer(run: FlowRun) -> FlowRun
    requires { run.hours < 255 }
    ensures { result ≡ longer_of run }
{
    FlowRun {
        first: run.first,
        hours: run.hours + 1,
    }
}

fn run_of(hour: FlowHour) -> FlowRun
    ensures { result ≡ run_of_one hour }
{
    FlowRun {
        first: hour,
        hours: 1,
    }
}

/// The longest runs of hours that show the same, in order.
#[tactic(auto, unfolding(crate::specs::FlowRuns::flow_runs))]
pub(crate) fn flow_runs(alloc: Global, hours: &[FlowHour]) -> Result<Vec<FlowRun>, AllocError>
    requires { length hours.now ≤ 25 }
    ensures { IfOk result (λ runs. runs.items ≡ flow_runs_of hours.now) }
{
    let mut found = Vec::new(alloc);
    let Some((first, more)) = hours.split_first() else {
        return Ok(found);
    };
    let mut run = run_of(*first);
    for hour in more {
        if shows_same(run.first, *hour) {
            run = longer(run);
        } else {
            found.push(run)?;
            run = run_of(*hour);
        }
    }
    found.push(run)?;
    Ok(found)
}
