//! Reading JSON text.

ghost use Rattle.std.specs.Prelude.{◌≡◌, ◌+◌, ◌<◌, ◌≤◌, ◌^◌, map, IfOk, IfSome, IsUtf8, None, Ok, option_map};
ghost use Rattle.json.specs.Tape.{node_token};
ghost use Rattle.serde_json.specs.Read.{max_depth};
ghost use Rattle.gi_messages.specs.Json.{json_of};
ghost use Rattle.gi_messages.specs.Tokens.{after, is_sound, value_at};

use crate::json_number::is_number;
use crate::json_value::JsonValue;
use json::{Error, Node, Scratch, Tape};
use std::alloc::{AllocError, Global};
use std::marker::Model;

/// How many arrays and objects may be open at once.
const MOST_OPEN: usize = 127;

/// A JSON text that was read. A clause sees its tokens.
#[derive(Drop)]
pub struct JsonText<'a> {
    tape: Tape<'a>,
}

impl<'a> Model for JsonText<'a> {
    ghost use Rattle.std.specs.Prelude.{List};
    ghost use Rattle.json.specs.Token.{Token, tokens_code};

    ghost Value = { List Token };

    ghost coded = { tokens_code };

    ghost use Rattle.gi_messages.specs.Tokens.{value_at, Begins};

    ghost view = { λ t. t.tape };

    ghost invariant = { λ t. Begins t.tape (value_at t.tape) };
}

impl<'a> JsonText<'a> {
    /// The whole value.
    pub fn root(&self) -> JsonValue<'_, 'a>
        ensures { result ≡ self.now }
    {
        JsonValue::new(self.tape.root())
    }
}

/// How many more arrays and objects may be open after a node.
fn after(node: &Node<'_>, more: usize) -> Option<usize>
    requires { more < 2 ^ 63 }
    ensures value { result ≡ after (node_token node.now) more }
    ensures within { IfSome result (λ left. left ≤ more + 1) }
{
    match node {
        Node::Object(_) | Node::Array(_) => more.checked_sub(1),
        Node::EndObject | Node::EndArray => Some(more + 1),
        Node::Number(text) if !is_number(text) => None,
        _ => Some(more),
    }
}

fn is_sound(nodes: &[Node<'_>]) -> bool
    ensures { result ≡ is_sound (map node_token nodes.now) max_depth }
{
    let mut more = MOST_OPEN;
    for node in nodes {
        match after(node, more) {
            Some(left) => more = left,
            None => return false,
        }
    }
    true
}

/// The JSON text that the bytes are, or `None` where they are none. It fails only for want of
/// memory, and where there are 4 GiB of them.
pub fn json<'a>(
    alloc: Global,
    bytes: &'a [u8],
    scratch: &'a mut Scratch,
) -> Result<Option<JsonText<'a>>, AllocError>
    ensures value { IfOk result (λ text. option_map value_at text ≡ json_of bytes.now) }
    ensures not_text { ¬ (IsUtf8 bytes.now) → result ≡ Ok None }
{
    let Ok(text) = simdutf8::compat::from_utf8(bytes) else {
        return Ok(None);
    };
    let tape = match Tape::parse(text, scratch, Vec::new(alloc)) {
        Ok(tape) => tape,
        Err(Error::Invalid) => return Ok(None),
        Err(_) => return Err(AllocError),
    };
    if !is_sound(tape.nodes()) {
        return Ok(None);
    }
    Ok(Some(JsonText { tape }))
}
