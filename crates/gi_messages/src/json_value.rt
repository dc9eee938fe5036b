//! The values of a JSON text that was read, in the words of `serde_json`.

ghost use Rattle.std.specs.Prelude.{◌≡◌, ◌<◌, length, is_some, option_map, option_and_then, MatchOption, OnSome};
ghost use Rattle.serde_json.specs.Data.{no_items, item};
ghost use Rattle.serde_json.specs.Find.{get, as_str, as_number, as_u64, as_array, as_object};
ghost use Rattle.gi_messages.specs.Tokens.{value_at, elements_at, count_within, Begins};

use crate::json_number::whole_number;
use json::{Element, Items};
use std::marker::Model;

/// A value of a text that was read. A clause sees the tokens that begin with it.
#[derive(Drop)]
pub struct JsonValue<'t, 'a> {
    element: Element<'t, 'a>,
}

impl<'t, 'a> Model for JsonValue<'t, 'a> {
    ghost use Rattle.std.specs.Prelude.{List};
    ghost use Rattle.json.specs.Token.{Token, tokens_code};

    ghost Value = { List Token };

    ghost coded = { tokens_code };

    ghost use Rattle.gi_messages.specs.Tokens.{value_at, Begins};

    ghost view = { λ v. v.element };

    ghost invariant = { λ v. Begins v.element (value_at v.element) };
}

impl<'t, 'a> JsonValue<'t, 'a> {
    /// The value with which the tokens of a text begin.
    pub(crate) fn new(element: Element<'t, 'a>) -> JsonValue<'t, 'a>
        requires { Begins element (value_at element) }
        ensures { result ≡ element.entry }
    {
        JsonValue { element }
    }

    /// The last value at a key, where this is an object that has the key.
    pub fn get(&self, key: &str) -> Option<JsonValue<'t, 'a>>
        ensures { option_map value_at result ≡ get key.now (value_at self.now) }
    {
        match self.element.get(key) {
            Some(element) => Some(JsonValue { element }),
            None => None,
        }
    }

    /// The text, where this is one.
    pub fn as_str(&self) -> Option<&'a str>
        ensures { option_map (λ s. s.now) result ≡ as_str (value_at self.now) }
    {
        self.element.as_str()
    }

    /// The number, where this is a whole one without sign, fraction and exponent that fits 64 bits.
    pub fn as_u64(&self) -> Option<u64>
        ensures { result ≡ option_and_then as_u64 (as_number (value_at self.now)) }
    {
        whole_number(self.element.as_number()?)
    }

    pub fn is_object(&self) -> bool
        ensures { result ≡ is_some (as_object (value_at self.now)) }
    {
        self.element.members().is_some()
    }

    /// The elements, where this is an array.
    pub fn elements(&self) -> Option<JsonElements<'t, 'a>>
        ensures { option_map elements_at result ≡ as_array (value_at self.now) }
    {
        match self.element.items() {
            Some(items) => Some(JsonElements { items }),
            None => None,
        }
    }
}

/// The elements of an array that are left. A clause sees the tokens from the next one on.
#[derive(Drop)]
pub struct JsonElements<'t, 'a> {
    items: Items<'t, 'a>,
}

impl<'t, 'a> Model for JsonElements<'t, 'a> {
    ghost use Rattle.std.specs.Prelude.{List};
    ghost use Rattle.json.specs.Token.{Token, tokens_code};

    ghost Value = { List Token };

    ghost coded = { tokens_code };

    ghost use Rattle.gi_messages.specs.Tokens.{elements_at, Holds};

    ghost view = { λ e. e.items };

    ghost invariant = { λ e. Holds e.items (elements_at e.items) };
}

impl<'t, 'a> JsonElements<'t, 'a> {
    /// Takes the next element.
    pub fn next(&mut self) -> Option<JsonValue<'t, 'a>>
        ensures value { MatchOption result (elements_at self.old ≡ no_items) (λ v. elements_at self.old ≡ item (value_at v) (elements_at self.new)) }
        ensures shorter { OnSome result (length self.new < length self.old) }
    {
        match self.items.next() {
            Some(element) => Some(JsonValue { element }),
            None => None,
        }
    }

    /// How many there are, or `None` where there are more than `limit`.
    pub fn count_within(mut self, limit: usize) -> Option<usize>
        ensures { result ≡ count_within limit (elements_at self.entry) }
    {
        for count in 0..limit {
            if self.next().is_none() {
                return Some(count);
            }
        }
        if self.next().is_none() {
            Some(limit)
        } else {
            None
        }
    }
}
