//! The entries of a text of names.

ghost use Rattle.std.specs.Prelude.{◌≡◌, option_map};
ghost use Rattle.gi_names.specs.Entries.{entry_of, first_line as first_line_of, further_lines as further_lines_of, has_entry as has_entry_by, hint_of, key_of as key_of_told, lines_of, piece_of as piece_named_by, told_of as told_of_piece, word_of as word_named_by};

/// What a piece tells: all behind its first space.
fn told_of(piece: &str) -> &str
    ensures { result.now ≡ told_of_piece piece.now }
{
    match piece.split_once(' ') {
        Some((_, told)) => told,
        None => "",
    }
}

fn first_line(told: &str) -> &str
    ensures { result.now ≡ first_line_of told.now }
{
    match told.split_once('\n') {
        Some((line, _)) => line,
        None => told,
    }
}

fn further_lines(told: &str) -> &str
    ensures { result.now ≡ further_lines_of told.now }
{
    match told.split_once('\n') {
        Some((_, lines)) => lines,
        None => "",
    }
}

/// The name whose entry it is: the first word.
fn key_of(told: &str) -> &str
    ensures { result.now ≡ key_of_told told.now }
{
    let line = first_line(told);
    match line.split_once(' ') {
        Some((key, _)) => key,
        None => line,
    }
}

fn piece_of<'a>(text: &'a str, name: &str) -> Option<&'a str>
    ensures { option_map (λ piece. piece.now) result ≡ piece_named_by text.now name.now }
{
    text.split('#').find(|piece| key_of(told_of(piece)) == name)
}

/// The entry of the name in a text of names, from the name on: the first, where there are several. The empty name has none.
pub fn entry_in<'a>(text: &'a str, name: &str) -> Option<&'a str>
    ensures { option_map (λ entry. entry.now) result ≡ entry_of text.now name.now }
{
    if name.is_empty() {
        return None;
    }
    match piece_of(text, name) {
        Some(piece) => Some(told_of(piece)),
        None => None,
    }
}

fn has_entry(text: &str, word: &str) -> bool
    ensures { result ≡ has_entry_by text.now word.now }
{
    entry_in(text, word).is_some()
}

/// The first word that has an entry.
fn word_of<'a>(text: &str, said: &'a str) -> Option<&'a str>
    ensures { option_map (λ word. word.now) result ≡ word_named_by text.now said.now }
{
    said.split(' ').find(|word| has_entry(text, word))
}

fn meaning_of<'a>(text: &'a str, word: &str) -> Option<&'a str>
    ensures { option_map (λ lines. lines.now) result ≡ lines_of text.now word.now }
{
    match entry_in(text, word) {
        Some(entry) => Some(further_lines(entry)),
        None => None,
    }
}

/// What the first word of what is said means of those that have an entry in a text of names: the entry's lines behind the first.
pub fn hint_in<'a>(text: &'a str, said: &str) -> Option<&'a str>
    ensures { option_map (λ lines. lines.now) result ≡ hint_of text.now said.now }
{
    match word_of(text, said) {
        Some(word) => meaning_of(text, word),
        None => None,
    }
}
