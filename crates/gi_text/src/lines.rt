ghost use Rattle.std.specs.Prelude.{◌≡◌, ◌==◌, ◌<◌, [], ◌∷◌, length, position, IfSome, MatchOption};
ghost use Rattle.gi_text.specs.Lines.{IsBehind, lines, line_feed as line_feed_byte};

use memchr::memchr;

/// What ends a line.
pub const LINE_FEED: u8 = b'\n';

fn line_feed(text: &[u8]) -> Option<usize>
    ensures { result ≡ position (λ byte. byte == line_feed_byte) text.now }
{
    memchr(LINE_FEED, text)
}

/// The first line of a text, without its line feed, and all that follows it; `None` where no byte
/// is left.
pub fn split_line(text: &[u8]) -> Option<(&[u8], &[u8])>
    ensures lines { MatchOption result (lines text.now ≡ []) (λ split. lines text.now ≡ split.0.now ∷ lines split.1.now) }
    ensures rest { IfSome result (λ split. IsBehind text.now split.0.now split.1.now) }
    ensures shorter { IfSome result (λ split. length split.1.now < length text.now) }
{
    if text.is_empty() {
        return None;
    }
    match line_feed(text) {
        Some(at) => Some((&text[..at], &text[at + 1..])),
        None => Some((text, &[])),
    }
}
