//! Days of seeds in a row.

use crate::beside::are_same_all_day;
use gi_calls::{Answer, Fault, Subject, Words};
use gi_initiator::Initiating;
use gi_matcher::Matching;
use gi_pairs::Side;
use std::alloc::Global;

/// The calls of the subject `drawn`: `days I 0 99` makes the days of these seeds at a desk of the
/// initiating operator and at a plain one.
#[derive(Drop)]
pub struct DrawnDays;

/// The day of a seed, of that side: whether both desks were the same all along.
fn is_same(alloc: Global, side: Side, seed: u32) -> bool {
    let seed = u64::from(seed);
    match side {
        Side::I => are_same_all_day::<Initiating>(alloc, seed),
        Side::M => are_same_all_day::<Matching>(alloc, seed),
    }
}

/// Adds on how many of the days both desks were the same, behind a line for each other one.
fn add_days(alloc: Global, side: Side, seeds: (u32, u32), text: &mut Answer) {
    let mut same = 0u32;
    for seed in seeds.0..=seeds.1 {
        if is_same(alloc, side, seed) {
            same = same.wrapping_add(1);
        } else {
            text.add("other on");
            text.word(seed);
            text.end_line();
        }
    }
    text.show(same);
    text.add(" the same");
}

impl Subject for DrawnDays {
    fn answer(&mut self, rt: &HostRuntime, call: &str, text: &mut Answer) -> Result<bool, Fault> {
        let mut words = Words::of(call);
        if words.next() != "days" {
            return Ok(false);
        }
        let (Some(side), Some(first), Some(last)) = (words.side(), words.number(), words.number())
        else {
            return Ok(false);
        };
        add_days(rt.alloc(), side, (first, last), text);
        Ok(true)
    }
}
