//! What is wrong with a line of a script.

use crate::lines::{first_line, line_at, parted};
use crate::place::Place;
use crate::trouble::Trouble;
use crate::wanted::{Wanted, wanted_behind};
use std::alloc::Global;
use strsim::levenshtein;

/// The commands of a script.
const COMMANDS: [&str; 10] = [
    "contract", "notice", "submit", "close", "resend", "halt", "save", "deliver", "restart",
    "carry",
];

/// The longest word that is compared with the commands.
const LONGEST: usize = 12;

/// How many edits are taken for a slip.
const MOST_EDITS: usize = 2;

fn is_command(word: &str) -> bool {
    COMMANDS.iter().any(|command| *command == word)
}

/// The command that the fewest edits lead to, at most two; None too where memory runs out.
fn nearest(alloc: Global, word: &str) -> Option<&'static str> {
    if word.len() > LONGEST {
        return None;
    }
    let (mut near, mut edits) = (None, MOST_EDITS + 1);
    for command in COMMANDS {
        let distance = levenshtein(alloc, word, command).ok()?;
        if distance < edits {
            (near, edits) = (Some(command), distance);
        }
    }
    near
}

/// Why a running office takes no such command of a script.
fn reason_of(command: &str) -> Option<&'static str> {
    match command {
        "save" => Some("which saves by itself"),
        "deliver" => Some("which brings each message by itself"),
        "restart" => Some("whose offices start once"),
        _ => None,
    }
}

/// The first of the words that is not what is wanted behind a command.
fn wrong_among<'a>(
    command: &'a str,
    wanted: &[Wanted],
    behind: Option<&'a str>,
) -> Option<Trouble<'a>> {
    let (mut last, mut rest) = (command, behind);
    for want in wanted {
        let Some(text) = rest else {
            return if *want == Wanted::Rule {
                None
            } else {
                Some(Trouble::Missing(*want, last))
            };
        };
        let (word, more) = parted(text);
        if !want.fits(word) {
            return Some(Trouble::Wrong(word, *want));
        }
        (last, rest) = (word, more);
    }
    match rest {
        Some(text) => Some(Trouble::TooMany(parted(text).0)),
        None => None,
    }
}

/// The first word that is no move of a carrier.
fn wrong_move<'a>(last: &'a str, behind: Option<&'a str>) -> Option<Trouble<'a>> {
    let Some(text) = behind else {
        return Some(Trouble::Missing(Wanted::Move, last));
    };
    match text.split(' ').find(|word| !Wanted::Move.fits(word)) {
        Some(word) => Some(Trouble::Wrong(word, Wanted::Move)),
        None => None,
    }
}

fn wrong_plan<'a>(behind: Option<&'a str>) -> Option<Trouble<'a>> {
    let Some(text) = behind else {
        return Some(Trouble::Missing(Wanted::Side, "plan"));
    };
    let (side, moves) = parted(text);
    if Wanted::Side.fits(side) {
        wrong_move(side, moves)
    } else {
        Some(Trouble::Wrong(side, Wanted::Side))
    }
}

/// What is wrong with a side's command and the words behind it.
fn wrong_command<'a>(
    alloc: Global,
    is_served: bool,
    command: &'a str,
    behind: Option<&'a str>,
) -> Option<Trouble<'a>> {
    if !is_command(command) {
        return Some(match nearest(alloc, command) {
            Some(near) => Trouble::NoCommand(command, near),
            None => Trouble::Unknown(command),
        });
    }
    match reason_of(command) {
        Some(reason) if is_served => return Some(Trouble::NotServed(command, reason)),
        _ => {}
    }
    if command == "submit" {
        return match behind {
            Some(_) => None,
            None => Some(Trouble::Missing(Wanted::Message, command)),
        };
    }
    wrong_among(command, wanted_behind(command), behind)
}

/// What is wrong with a line that begins with no side.
fn wrong_side(word: &str) -> Trouble<'_> {
    if word == "point" {
        Trouble::SecondPoint
    } else if is_command(word) {
        Trouble::NoSide(word)
    } else {
        Trouble::Wrong(word, Wanted::Side)
    }
}

/// What is wrong with the words of a line behind the point's.
fn wrong_words<'a>(alloc: Global, is_served: bool, line: &'a str) -> Option<Trouble<'a>> {
    let (first, behind) = parted(line);
    if first == "plan" {
        return wrong_plan(behind);
    }
    if !Wanted::Side.fits(first) {
        return Some(wrong_side(first));
    }
    let Some(text) = behind else {
        return Some(Trouble::Missing(Wanted::Command, first));
    };
    let (command, behind) = parted(text);
    wrong_command(alloc, is_served, command, behind)
}

/// What is wrong with the words of the point's line.
fn wrong_point(line: &str) -> Option<Trouble<'_>> {
    let (first, behind) = parted(line);
    if first == "point" {
        wrong_among(first, wanted_behind(first), behind)
    } else {
        Some(Trouble::NoPoint(first))
    }
}

/// Two spaces, or one at either end.
fn has_lone_space(line: &str) -> bool {
    line.split(' ').any(|word| word.is_empty())
}

/// The same of the words of a line, but of those in a message, and of those behind a word that is no command.
fn has_wrong_space(line: &str) -> bool {
    let (first, behind) = parted(line);
    let Some(text) = behind else {
        return first.is_empty();
    };
    let (command, _) = parted(text);
    match command {
        "submit" => first.is_empty(),
        _ if first == "plan" || is_command(command) => has_lone_space(line),
        _ => first.is_empty() || command.is_empty(),
    }
}

/// Whether the first word of a line begins as those of comments do.
fn is_comment(line: &str) -> bool {
    match line.split(' ').find(|word| !word.is_empty()) {
        Some(word) => word.starts_with('#'),
        None => false,
    }
}

/// What is wrong with the bytes of a line, whichever words it has.
fn wrong_bytes(line: &[u8]) -> Option<Trouble<'static>> {
    if line.ends_with(b"\r") {
        Some(Trouble::CarriageReturn)
    } else if line.starts_with(b"\xef\xbb\xbf") {
        Some(Trouble::Mark)
    } else {
        None
    }
}

fn point_trouble(line: &[u8]) -> Option<Trouble<'_>> {
    if let Some(trouble) = wrong_bytes(line) {
        return Some(trouble);
    }
    let Ok(text) = str::from_utf8(line) else {
        return Some(Trouble::NotText);
    };
    if is_comment(text) {
        return Some(Trouble::Comment);
    }
    if has_lone_space(text) {
        return Some(Trouble::Spaces);
    }
    wrong_point(text)
}

fn line_trouble(alloc: Global, is_served: bool, line: &[u8]) -> Option<Trouble<'_>> {
    if let Some(trouble) = wrong_bytes(line) {
        return Some(trouble);
    }
    let Ok(text) = str::from_utf8(line) else {
        return Some(Trouble::NotText);
    };
    if is_comment(text) {
        return Some(Trouble::Comment);
    }
    if has_wrong_space(text) {
        return Some(Trouble::Spaces);
    }
    wrong_words(alloc, is_served, text)
}

/// What is wrong with the line of this number of a script, where something is found: of one for `serve`, or of any other.
pub(crate) fn line_place(
    alloc: Global,
    is_served: bool,
    script: &[u8],
    number: u64,
) -> Option<Place<'_>> {
    let trouble = line_trouble(alloc, is_served, line_at(script, number)?)?;
    Some(Place::Line { number, trouble })
}

/// What is wrong with the line that has to name the point.
pub(crate) fn point_place(script: &[u8]) -> Option<Place<'_>> {
    match first_line(script) {
        Some((number, line)) => Some(Place::Line {
            number,
            trouble: point_trouble(line)?,
        }),
        None => Some(Place::NoLine),
    }
}
