//! Messages, read from bytes and written as them, and the lines of a message.

mod lines;
pub mod shown;

use crate::json_bytes::{add_written, json_bytes};
use gi_calls::{Answer, Fault, Subject, Words};
use gi_messages::parts::{Span, json, span_of};
use gi_messages::{Key, Line, Lines, Message, MessageLine, decode, encode};
use json::Scratch;
use lines::{line_of, lines_of};
use shown::{add_line, add_lines, add_message};
use std::alloc::Global;

/// The calls of the subject `messages`, on the message and the lines that the calls before made.
#[derive(Drop)]
pub struct Messages {
    message: Option<Message>,
    lines: Option<Lines<Line>>,
}

impl Messages {
    pub fn new() -> Messages {
        Messages {
            message: None,
            lines: None,
        }
    }

    /// Keeps a message that was read, and answers what is written for it; or that memory is wanted for that, and keeps
    /// the one before.
    fn keep(
        &mut self,
        alloc: Global,
        form: &str,
        read: &[u8],
        message: Message,
        text: &mut Answer,
    ) -> Result<bool, Fault> {
        match encode(alloc, &message) {
            Ok(written) => {
                add_written(form, read, &written, text);
                self.message = Some(message);
            }
            Err(_) => {
                drop(message);
                text.add("OutOfMemory");
            }
        }
        Ok(true)
    }

    /// Reads a message and keeps it. The answer is what is written for it, or the fault.
    fn decode(
        &mut self,
        alloc: Global,
        form: &str,
        words: Words,
        text: &mut Answer,
    ) -> Result<bool, Fault> {
        let Some(bytes) = json_bytes(alloc, form, words)? else {
            return Ok(false);
        };
        match decode(alloc, &bytes) {
            Ok(message) => self.keep(alloc, form, &bytes, message, text),
            Err(fault) => {
                text.show(fault);
                Ok(true)
            }
        }
    }

    /// The kind and the fields of the message.
    fn fields(&self, text: &mut Answer) -> bool {
        let Some(message) = &self.message else {
            return false;
        };
        add_message(message, text);
        true
    }

    /// Keeps lines in the place of those before, which are let go here alone.
    fn keep_lines(&mut self, lines: Lines<Line>, text: &mut Answer) {
        add_lines(&lines, text);
        self.lines = Some(lines);
    }

    /// Makes lines of a call's words and keeps them.
    fn from(&mut self, alloc: Global, words: Words, text: &mut Answer) -> Result<bool, Fault> {
        let Some(lines) = lines_of(alloc, words)? else {
            return Ok(false);
        };
        self.keep_lines(lines, text);
        Ok(true)
    }

    /// Copies the lines and keeps the copy in their place.
    fn copy(&mut self, text: &mut Answer) -> Result<bool, Fault> {
        let Some(lines) = &self.lines else {
            return Ok(false);
        };
        let copy = lines.copy()?;
        self.keep_lines(copy, text);
        Ok(true)
    }

    /// Whether the lines are equal to those of a call's words.
    fn eq(&self, alloc: Global, words: Words, text: &mut Answer) -> Result<bool, Fault> {
        let (Some(lines), Some(other)) = (&self.lines, lines_of(alloc, words)?) else {
            return Ok(false);
        };
        text.add(if *lines == other { "true" } else { "false" });
        Ok(true)
    }

    /// Takes the lines apart: their number, and each one.
    fn into_vec(&mut self, text: &mut Answer) -> bool {
        let Some(lines) = self.lines.take() else {
            return false;
        };
        let lines = lines.into_vec();
        text.show(lines.len());
        text.end_line();
        for line in &lines {
            add_line(line, text);
        }
        true
    }
}

/// Copies a line.
fn copy_line(alloc: Global, words: Words, text: &mut Answer) -> Result<bool, Fault> {
    let Some(line) = line_of(alloc, words.rest())? else {
        return Ok(false);
    };
    add_line(&line.copy()?, text);
    Ok(true)
}

/// Adds hours that were read, or the key that is missing or wrong.
fn add_span(span: Result<Span, Key>, text: &mut Answer) {
    match span {
        Ok(Span { first, last }) => {
            text.show(first);
            text.word(last);
        }
        Err(key) => text.add(key.text()),
    }
}

/// The hours that an object names, or the first key of the two that is missing or wrong.
fn span(alloc: Global, words: Words, text: &mut Answer) -> Result<bool, Fault> {
    let mut scratch = Scratch::new(alloc);
    let Some(object) = json(alloc, words.rest().as_bytes(), &mut scratch)? else {
        return Ok(false);
    };
    add_span(span_of(&object.root()), text);
    Ok(true)
}

impl Subject for Messages {
    fn answer(&mut self, rt: &HostRuntime, call: &str, text: &mut Answer) -> Result<bool, Fault> {
        let alloc = rt.alloc();
        let mut words = Words::of(call);
        let name = words.next();
        if let Some(form) = name.strip_prefix("decode") {
            return self.decode(alloc, form, words, text);
        }
        match name {
            "fields" => Ok(self.fields(text)),
            "from" => self.from(alloc, words, text),
            "copy" => self.copy(text),
            "copy_line" => copy_line(alloc, words, text),
            "eq" => self.eq(alloc, words, text),
            "into_vec" => Ok(self.into_vec(text)),
            "span_of" => span(alloc, words, text),
            _ => Ok(false),
        }
    }
}
