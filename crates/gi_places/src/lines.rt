use gi_text::split_line;

/// The line of this number, from 1, of a text, without its line feed.
pub(crate) fn line_at(text: &[u8], number: u64) -> Option<&[u8]> {
    let mut rest = text;
    for _ in 1..number {
        rest = split_line(rest)?.1;
    }
    Some(split_line(rest)?.0)
}

/// The first line of a text that is not empty, and its number, from 1; empty lines are counted.
pub(crate) fn first_line(text: &[u8]) -> Option<(u64, &[u8])> {
    let mut rest = text;
    for number in 1..=u64::MAX {
        let (line, behind) = split_line(rest)?;
        if !line.is_empty() {
            return Some((number, line));
        }
        rest = behind;
    }
    None
}

/// The first word of a line, and what stands behind the space after it, if there is one.
pub(crate) fn parted(line: &str) -> (&str, Option<&str>) {
    match line.split_once(' ') {
        Some((word, behind)) => (word, Some(behind)),
        None => (line, None),
    }
}

/// How many lines a text has.
pub(crate) fn lines_of(text: &[u8]) -> u64 {
    let mut rest = text;
    for count in 0..u64::MAX {
        match split_line(rest) {
            Some((_, behind)) => rest = behind,
            None => return count,
        }
    }
    u64::MAX
}
