use crate::fault::Fault;
use std::alloc::Global;
use std::fmt::{Debug, Display, Write};

/// What a call answers, as text.
///
/// No part of it is refused, so that who adds it has nothing to hand on: where there is no memory for
/// one it is left out, which is told when the text is taken. The values that are added here are shown
/// without a refusal of their own.
#[derive(Drop, PartialEq)]
pub struct Answer {
    text: String,
    is_whole: bool,
}

impl Answer {
    /// An answer of no text.
    pub fn new(alloc: Global) -> Answer {
        Answer {
            text: String::new(alloc),
            is_whole: true,
        }
    }

    /// Takes back the text so far, but not that there was no memory for a part of it.
    pub fn clear(&mut self) {
        self.text.clear();
    }

    /// Adds a text.
    pub fn add(&mut self, text: &str) {
        if self.text.push_str(text).is_err() {
            self.is_whole = false;
        }
    }

    /// Adds a value as it is shown.
    pub fn show<T: Display + Copy>(&mut self, value: T) {
        if write!(self.text, "{value}").is_err() {
            self.is_whole = false;
        }
    }

    /// Adds a value as it is shown, behind a space where its line has begun.
    pub fn word<T: Display + Copy>(&mut self, value: T) {
        if !self.text.is_empty() && !self.text.as_str().ends_with('\n') {
            self.add(" ");
        }
        self.show(value);
    }

    /// Adds a value as it is shown to who looks for a fault.
    pub fn debug<T: Debug>(&mut self, value: &T) {
        if write!(self.text, "{value:?}").is_err() {
            self.is_whole = false;
        }
    }

    /// Adds a value, or the refusal in its place.
    pub fn value<T: Display + Copy, E: Display + Copy>(&mut self, given: &Result<T, E>) {
        match given {
            Ok(value) => self.word(*value),
            Err(fault) => self.word(*fault),
        }
    }

    /// Adds `ok`, or the refusal in its place.
    pub fn done<T, E: Display + Copy>(&mut self, given: &Result<T, E>) {
        match given {
            Ok(_) => self.word("ok"),
            Err(fault) => self.word(*fault),
        }
    }

    /// Adds the text of another answer.
    pub fn append(&mut self, answer: &Answer) {
        self.add(answer.text.as_str());
        self.is_whole &= answer.is_whole;
    }

    /// Ends the line.
    pub fn end_line(&mut self) {
        self.add("\n");
    }

    /// Adds the lines of another answer, each behind `= `.
    pub(crate) fn add_lines_of(&mut self, answer: &Answer) {
        for line in answer.text.as_str().lines() {
            self.add("= ");
            self.add(line);
            self.end_line();
        }
        self.is_whole &= answer.is_whole;
    }

    /// The text, or that there was no memory for all of it.
    pub fn into_text(self) -> Result<String, Fault> {
        if !self.is_whole {
            return Err(Fault::OutOfMemory);
        }
        Ok(self.text)
    }
}
