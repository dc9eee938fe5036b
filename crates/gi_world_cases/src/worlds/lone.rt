//! The matching operator's desk by itself, which takes whatever it is handed.

use crate::worlds::answers::{add_counts, add_reply};
use crate::worlds::asking::{call_of, delivery, mark};
use gi_calls::{Answer, Fault, Words};
use gi_day::Calendar;
use gi_desk::{Call, Desk};
use gi_matcher::Matching;
use std::alloc::{AllocError, Global};
use std::mem::ManuallyDrop;

/// The desk, once there is one.
pub struct Lone {
    desk: Option<Desk<Matching>>,
}

/// What the words ask of the desk, if they ask something.
fn asked(
    alloc: Global,
    desk: &Desk<Matching>,
    words: Words<'_>,
) -> Result<Option<Call>, AllocError> {
    let mut rest = words;
    match rest.next() {
        "deliver" => delivery(alloc, rest.rest()),
        "save" => mark(desk),
        _ => call_of(alloc, words),
    }
}

/// Makes the call that the words ask of the desk, and adds what it answers. `false` where they ask
/// nothing of it.
fn make(
    alloc: Global,
    desk: &mut Desk<Matching>,
    words: Words<'_>,
    text: &mut Answer,
) -> Result<bool, Fault> {
    let Some(call) = asked(alloc, desk, words)? else {
        return Ok(false);
    };
    let reply = desk.step(&call);
    add_reply(&reply, text);
    // (handed to `drop`, by one call: going out of scope here would be checked field by field on
    // each way out)
    drop((call, reply));
    Ok(true)
}

impl Lone {
    /// There is no desk yet.
    pub fn new() -> Lone {
        Lone { desk: None }
    }

    /// Keeps a desk in the place of the one before, which stays until the program ends.
    fn keep(&mut self, desk: Desk<Matching>) {
        let _former = unsafe { ManuallyDrop::new_unchecked(self.desk.replace(desk)) };
    }

    /// A desk without facts, at the interconnection point.
    fn begin(&mut self, alloc: Global, mut words: Words<'_>, text: &mut Answer) -> bool {
        let Some(point) = words.code() else {
            return false;
        };
        let Ok(calendar) = Calendar::new() else {
            return false;
        };
        match Desk::replay(alloc, calendar, point, Vec::new(alloc)) {
            Ok(desk) => {
                self.keep(desk);
                text.add("ok\n");
            }
            Err(fault) => {
                text.show(fault);
                text.end_line();
            }
        }
        true
    }

    /// Adds what the desk answers. `false` where the words ask nothing of it.
    pub fn answer(
        &mut self,
        alloc: Global,
        words: Words<'_>,
        text: &mut Answer,
    ) -> Result<bool, Fault> {
        let mut rest = words;
        if rest.next() == "new" {
            return Ok(self.begin(alloc, rest, text));
        }
        let Some(desk) = &mut self.desk else {
            return Ok(false);
        };
        if words.rest() != "counts" {
            return make(alloc, desk, words, text);
        }
        add_counts(desk, text);
        Ok(true)
    }
}
