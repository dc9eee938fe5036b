use crate::answer::Answer;
use crate::fault::Fault;
use crate::subject::Subject;
use std::mem::ManuallyDrop;

/// Whether a line of cases is a call: a line that is empty, or a comment, or an answer is none.
fn is_call(line: &str) -> bool {
    !line.is_empty() && !line.starts_with('#') && !line.starts_with("= ")
}

/// Adds a line of cases, and tells whether it is a call. An answer that stands in the file is left out.
pub fn add_case(line: &str, text: &mut Answer) -> bool {
    if !line.starts_with("= ") {
        text.add(line);
        text.end_line();
    }
    is_call(line)
}

/// Adds the answer to the call of the last line, or that there is no such call.
pub fn add_answer(is_made: bool, answer: &mut Answer, text: &mut Answer) {
    if !is_made {
        answer.add("no such call");
    }
    text.add_lines_of(answer);
}

/// Adds a line of cases, and the answer to a call.
fn add_line<S: Subject>(
    rt: &HostRuntime,
    subject: &mut S,
    line: &str,
    text: &mut Answer,
) -> Result<(), Fault> {
    if add_case(line, text) {
        let mut answer = Answer::new(rt.alloc());
        let is_made = subject.answer(rt, line, &mut answer)?;
        add_answer(is_made, &mut answer, text);
    }
    Ok(())
}

/// The cases, each call with what it answers now.
///
/// The subject is kept until the program ends: no call is left to see how it is let go, and with a
/// database or a desk in it that is dear to prove.
pub fn answered<S: Subject>(rt: &HostRuntime, subject: S, cases: &str) -> Result<String, Fault> {
    // `ManuallyDrop::new` asks for a type that may be let go, whose drop is then proved here.
    let mut kept = unsafe { ManuallyDrop::new_unchecked(subject) };
    let mut text = Answer::new(rt.alloc());
    for line in cases.lines() {
        add_line(rt, &mut *kept, line, &mut text)?;
    }
    text.into_text()
}
