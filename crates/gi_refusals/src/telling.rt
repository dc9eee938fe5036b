ghost use Rattle.std.specs.Prelude.{◌≡◌};
ghost use Rattle.gi_refusals.specs.Refusals.{behind_word as behind_word_of, tells_refusal as tells_refusal_of};

fn behind_word(text: &[u8]) -> &[u8]
    ensures { result.now ≡ behind_word_of text.now }
{
    let Some((byte, rest)) = text.split_first() else {
        return text;
    };
    if *byte == b' ' {
        rest
    } else {
        behind_word(rest)
    }
}

/// Whether the front of a line tells that something was refused.
pub(crate) fn tells_refusal(line: &[u8]) -> bool
    ensures { result ≡ tells_refusal_of line.now }
{
    behind_word(behind_word(line)).starts_with(b"refused ")
        || line.starts_with(b"{\"answer\":\"refused\",")
}
