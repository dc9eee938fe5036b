//! The parts of JSON lines.

ghost use Rattle.std.specs.Prelude.{◌≡◌, [], ◌∷◌, ◌++◌, IfOk, codes};
ghost use Rattle.json.specs.Print.{print};
ghost use Rattle.json.specs.Token.{end_object as end_token};
ghost use Rattle.serde_json.specs.Data.{string};
ghost use Rattle.gi_messages.specs.Writing.{whole};
ghost use Rattle.gi_exports.specs.Json.{AddsAt, IsBegun, number_or_null, portfolio_data};

use gi_pairs::Code;
use json::Writer;
use std::alloc::AllocError;

/// An object that begins behind a text. Its members are added then, with their names in byte order.
pub fn object_begun(text: Vec<u8>) -> Result<Writer, AllocError>
    ensures { IfOk result (λ out. IsBegun out text.items) }
{
    let mut out = Writer::new(text);
    out.begin_object()?;
    Ok(out)
}

/// Adds a whole number at a name.
pub fn put_whole(out: &mut Writer, name: &str, number: u64) -> Result<(), AllocError>
    ensures { AddsAt result out.old out.new name.now (whole number) }
{
    out.key(name)?;
    out.u64(number)
}

/// Adds a whole number at a name, null where there is none.
pub fn put_number_or_null(
    out: &mut Writer,
    name: &str,
    number: Option<u64>,
) -> Result<(), AllocError>
    ensures { AddsAt result out.old out.new name.now (number_or_null number) }
{
    out.key(name)?;
    let Some(number) = number else {
        return out.null();
    };
    out.u64(number)
}

/// Adds a text at a name.
pub fn put_word(out: &mut Writer, name: &str, text: &str) -> Result<(), AllocError>
    ensures { AddsAt result out.old out.new name.now (string text.now) }
{
    out.key(name)?;
    out.string(text)
}

/// Adds a portfolio at the name `portfolio`, null where there is none.
pub fn put_portfolio(out: &mut Writer, code: &Option<Code>) -> Result<(), AllocError>
    ensures { AddsAt result out.old out.new (codes "portfolio") (portfolio_data code.now) }
{
    out.key("portfolio")?;
    match code {
        Some(code) => out.string(code.as_str()),
        None => out.null(),
    }
}

/// What was written, and a line feed.
pub fn ended(out: Writer) -> Result<Vec<u8>, AllocError>
    ensures { IfOk result (λ bytes. bytes.items ≡ out.before ++ (print out.tokens ++ codes "\n")) }
{
    let mut text = out.into_inner();
    text.push(b'\n')?;
    Ok(text)
}

/// The text with the object that was begun, whose members are all added, and a line feed.
pub fn object_ended(mut out: Writer) -> Result<Vec<u8>, AllocError>
    ensures { IfOk result (λ bytes. bytes.items ≡ out.before ++ (print (out.tokens ++ end_token ∷ []) ++ codes "\n")) }
{
    out.end_object()?;
    ended(out)
}
