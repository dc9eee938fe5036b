//! The calls of the subject `commands`.

use crate::kept::KeptBooks;
use gi_calls::{Answer, Fault, Words, add_answer, add_case};
use gi_command_line::{Task, requested};
use gi_commands::perform;
use gi_facts::decode_fact;
use std::alloc::Global;
use std::thread::Threads;
use std::{io, str};

// What goes out of scope here is handed to `drop`, by one call, since it would be checked field by
// field on each way out.

/// The words of a command line, the first being the program's name.
fn words_of(alloc: Global, given: &str) -> Result<Vec<&str>, Fault> {
    let mut words = Vec::new(alloc);
    words.push("gi_dispatch")?;
    for word in given.split(' ') {
        words.push(word)?;
    }
    Ok(words)
}

/// What a command writes, and behind it the fault, if any.
fn add_done(
    threads: &(impl Threads + Sync),
    alloc: Global,
    books: &KeptBooks,
    words: &[&str],
    text: &mut Answer,
) -> bool {
    let Ok(Task::AtOnce(request)) = requested(alloc, words) else {
        return false;
    };
    let mut output = Vec::new(alloc);
    let done = perform(
        alloc,
        threads,
        books,
        request,
        &mut io::empty(),
        &mut output,
    );
    text.add(str::from_utf8(output.as_slice()).unwrap_or("no text"));
    drop(output);
    if let Err(fault) = done {
        text.debug(&fault);
    }
    true
}

/// Adds a fact to the end of a book: `fact I TEXT`, `fact M TEXT`.
fn add_fact(alloc: Global, books: &mut KeptBooks, mut words: Words<'_>) -> Result<bool, Fault> {
    let side = words.next();
    let Ok(fact) = decode_fact(alloc, words.rest().as_bytes()) else {
        return Ok(false);
    };
    match side {
        "I" => books.initiating.push(fact)?,
        "M" => books.matching.push(fact)?,
        _ => return Ok(false),
    }
    Ok(true)
}

/// Makes the call of the line and adds its answer. `false` where it is none.
fn answer(
    threads: &(impl Threads + Sync),
    alloc: Global,
    books: &mut KeptBooks,
    call: &str,
    text: &mut Answer,
) -> Result<bool, Fault> {
    let mut words = Words::of(call);
    match words.next() {
        "fact" => add_fact(alloc, books, words),
        _ => {
            let words = words_of(alloc, call)?;
            Ok(add_done(threads, alloc, books, words.as_slice(), text))
        }
    }
}

fn answer_all(
    threads: &(impl Threads + Sync),
    alloc: Global,
    books: &mut KeptBooks,
    cases: &str,
    text: &mut Answer,
) -> Result<(), Fault> {
    for line in cases.lines() {
        if add_case(line, text) {
            let mut made = Answer::new(alloc);
            let is_made = answer(threads, alloc, books, line, &mut made)?;
            add_answer(is_made, &mut made, text);
        }
    }
    Ok(())
}

/// The cases with their answers.
pub fn command_answers(
    threads: &(impl Threads + Sync),
    alloc: Global,
    cases: &str,
) -> Result<String, Fault> {
    let mut books = KeptBooks {
        alloc,
        initiating: Vec::new(alloc),
        matching: Vec::new(alloc),
    };
    let mut text = Answer::new(alloc);
    let answered = answer_all(threads, alloc, &mut books, cases, &mut text);
    drop(books);
    match answered {
        Ok(()) => text.into_text(),
        Err(fault) => {
            drop(text);
            Err(fault)
        }
    }
}
