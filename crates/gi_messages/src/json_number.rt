//! Numbers in JSON text.

ghost use Rattle.std.specs.Prelude.{◌≡◌, ◌<◌, ◌==◌, true, false, is_some, length, option_and_then, slice_index, Some, IfSome, IsTrue};
ghost use Rattle.serde_json.specs.Data.{unsigned};
ghost use Rattle.serde_json.specs.Find.{as_u64};
ghost use Rattle.serde_json.specs.Read.{number_of, number_from, float_of};

use fast_float::{Numeral, parse_u64};

fn begins_with(bytes: &[u8], sign: u8) -> bool
    requires { 0 < sign }
    ensures value { result ≡ (slice_index bytes.now 0 == sign) }
    ensures within { IsTrue result → 0 < length bytes.now }
{
    !bytes.is_empty() && bytes[0] == sign
}

/// The number that digits alone are, where it fits 64 bits: what most numbers are, read fast.
fn digits(bytes: &[u8]) -> Option<u64>
    ensures { IfSome result (λ n. number_of bytes.now ≡ Some (unsigned n)) }
{
    if begins_with(bytes, b'+') {
        return None;
    }
    match parse_u64(bytes) {
        Ok(n) => Some(n),
        Err(_) => None,
    }
}

fn unsigned(numeral: &Numeral<'_>) -> Option<u64>
    ensures { result ≡ option_and_then as_u64 (number_from false numeral.now) }
{
    numeral.to_u64()
}

fn is_finite(negative: bool, numeral: &Numeral<'_>) -> bool
    ensures { result ≡ is_some (float_of negative numeral.now) }
{
    numeral.to_float::<f64>(negative).is_finite()
}

fn is_unsigned(numeral: &Numeral<'_>) -> bool
    ensures { result ≡ is_some (number_from false numeral.now) }
{
    numeral.to_u64().is_some() || is_finite(false, numeral)
}

fn is_negative(numeral: &Numeral<'_>) -> bool
    ensures { result ≡ is_some (number_from true numeral.now) }
{
    match numeral.to_i64(true) {
        Some(n) if n < 0 => true,
        _ => is_finite(true, numeral),
    }
}

fn whole_of_numeral(bytes: &[u8]) -> Option<u64>
    ensures { result ≡ option_and_then as_u64 (number_of bytes.now) }
{
    if begins_with(bytes, b'-') {
        return None;
    }
    unsigned(&Numeral::scan(bytes))
}

fn is_numeral(bytes: &[u8]) -> bool
    ensures { result ≡ is_some (number_of bytes.now) }
{
    if begins_with(bytes, b'-') {
        is_negative(&Numeral::scan(&bytes[1..]))
    } else {
        is_unsigned(&Numeral::scan(bytes))
    }
}

/// The whole number that the text of a number is, where it has no sign, fraction and exponent and
/// fits 64 bits.
pub(crate) fn whole_number(text: &str) -> Option<u64>
    ensures { result ≡ option_and_then as_u64 (number_of text.now) }
{
    let bytes = text.as_bytes();
    match digits(bytes) {
        Some(n) => Some(n),
        None => whole_of_numeral(bytes),
    }
}

/// Whether the text of a number is one that is not too large for a float.
pub(crate) fn is_number(text: &str) -> bool
    ensures { result ≡ is_some (number_of text.now) }
{
    let bytes = text.as_bytes();
    match digits(bytes) {
        Some(_) => true,
        None => is_numeral(bytes),
    }
}
