//! Calls that are made again and again.

use crate::numbers::numbers;
use gi_calls::{Answer, Fault, Subject, Words};
use std::alloc::{AllocError, Global};
use std::fmt::Write;

/// A subject whose calls can be repeated: `each 1-64 CALL` makes the call for each of the numbers,
/// which stands in it in place of `#`. Equal answers in a row are one, behind their numbers.
pub struct Repeated<S: Subject> {
    subject: S,
}

/// The call for a number.
fn with_number(alloc: Global, call: &str, number: u8) -> Result<String, AllocError> {
    let mut text = String::new(alloc);
    for (place, piece) in call.split('#').enumerate() {
        if place > 0 {
            write!(text, "{number}")?;
        }
        text.push_str(piece)?;
    }
    Ok(text)
}

/// Adds the answer for the numbers from `first` to `last`.
fn add_run(first: u8, last: u8, answer: &Answer, text: &mut Answer) {
    text.show(first);
    if first != last {
        text.add("-");
        text.show(last);
    }
    text.add(" ");
    text.append(answer);
    text.end_line();
}

/// The numbers so far whose answers are equal: the first one, and their answer.
#[derive(Drop)]
struct Run {
    first: u8,
    answer: Answer,
}

impl Run {
    /// Takes the answer for the next number; where it is another one, the run so far is added.
    fn follow(&mut self, number: u8, answer: Answer, text: &mut Answer) {
        if number > self.first && answer != self.answer {
            add_run(self.first, number - 1, &self.answer, text);
            self.first = number;
        }
        self.answer = answer;
    }
}

impl<S: Subject> Repeated<S> {
    pub fn of(subject: S) -> Repeated<S> {
        Repeated { subject }
    }

    /// Makes the call for a number.
    fn one(
        &mut self,
        rt: &HostRuntime,
        call: &str,
        number: u8,
        text: &mut Answer,
    ) -> Result<bool, Fault> {
        let call = with_number(rt.alloc(), call, number)?;
        self.subject.answer(rt, call.as_str(), text)
    }

    /// Makes the call for each number.
    fn each(
        &mut self,
        rt: &HostRuntime,
        range: (u8, u8),
        call: &str,
        text: &mut Answer,
    ) -> Result<bool, Fault> {
        let alloc = rt.alloc();
        let (first, last) = range;
        let mut run = Run {
            first,
            answer: Answer::new(alloc),
        };
        for number in first..=last {
            let mut answer = Answer::new(alloc);
            if !self.one(rt, call, number, &mut answer)? {
                return Ok(false);
            }
            run.follow(number, answer, text);
        }
        add_run(run.first, last, &run.answer, text);
        Ok(true)
    }
}

impl<S: Subject> Subject for Repeated<S> {
    fn answer(&mut self, rt: &HostRuntime, call: &str, text: &mut Answer) -> Result<bool, Fault> {
        let mut words = Words::of(call);
        if words.next() != "each" {
            return self.subject.answer(rt, call, text);
        }
        match numbers(words.next()) {
            Some(range) => self.each(rt, range, words.rest(), text),
            None => Ok(false),
        }
    }
}
