//! What the fills, the hatches and the letters of the charts mean.

ghost use Rattle.std.specs.Prelude.{◌≡◌, IfOk, string_bytes};
ghost use Rattle.gi_picture.specs.Key.{chart_defs as chart_defs_of, chart_key as chart_key_of, is_used as is_used_of, letters as letters_of, swatch as swatch_of, swatches as swatches_of, word_if as word_if_of, words as words_of};

use crate::axis::prefix_size;
use crate::heights::{direction_scale, net_scale};
use crate::hour::Hour;
use gi_pairs::Direction;
use std::alloc::{AllocError, Global};

fn is_used(hours: &[Hour], size: u64) -> bool
    ensures { result ≡ is_used_of hours.now size }
{
    let im = prefix_size(direction_scale(Direction::IM, hours).step);
    let mi = prefix_size(direction_scale(Direction::MI, hours).step);
    let net = prefix_size(net_scale(hours).step);
    im == size || mi == size || net == size
}

#[tactic(auto, unfolding(crate::specs::Key::word_if))]
fn word_if(hours: &[Hour], size: u64, word: &'static str) -> &'static str
    ensures { result.now ≡ word_if_of hours.now size word.now }
{
    if is_used(hours, size) { word } else { "" }
}

/// The letters that stand on an axis, with their meanings.
#[tactic(auto, unfolding(crate::specs::Key::letters))]
fn letters(alloc: Global, hours: &[Hour]) -> Result<String, AllocError>
    ensures { IfOk result (λ text. string_bytes text ≡ letters_of hours.now) }
{
    let k = word_if(hours, 1_000, "; k is a thousand");
    let m = word_if(hours, 1_000_000, "; M is a million");
    let g = word_if(hours, 1_000_000_000, "; G is a thousand million");
    let t = word_if(hours, 1_000_000_000_000, "; T is a million million");
    format!(in alloc; "{k}{m}{g}{t}")
}

#[tactic(auto, unfolding(crate::specs::Key::swatch))]
fn swatch(alloc: Global, class: &str, word: &str) -> Result<String, AllocError>
    ensures { IfOk result (λ text. string_bytes text ≡ swatch_of class.now word.now) }
{
    format!(in alloc;
        "<span><svg class=\"in\" viewBox=\"0 0 24 12\" width=\"24\" height=\"12\" aria-hidden=\"true\"><path class=\"{class} rim\" d=\"M1 1H23V11H1z\"/></svg> {word}</span>"
    )
}

#[tactic(auto, unfolding(crate::specs::Key::swatches))]
fn swatches(alloc: Global) -> Result<String, AllocError>
    ensures { IfOk result (λ text. string_bytes text ≡ swatches_of) }
{
    let force = swatch(alloc, "force", "in force")?;
    let peer = swatch(alloc, "bypeer", "cut by the peer")?;
    let own = swatch(alloc, "byown", "cut by own capacity")?;
    format!(in alloc; "{force}, {peer}, {own}")
}

#[tactic(auto, unfolding(crate::specs::Key::words))]
fn words(alloc: Global, hours: &[Hour]) -> Result<String, AllocError>
    ensures { IfOk result (λ text. string_bytes text ≡ words_of hours.now) }
{
    let letters = letters(alloc, hours)?;
    format!(in alloc;
        "The lower is taken pair by pair, so a sum in force can lie below both processed sums. Each chart has its own axis{letters}."
    )
}

/// The key of the charts of a day: their fills and hatches, and the letters that stand on an axis.
#[tactic(auto, unfolding(crate::specs::Key::chart_key))]
pub fn chart_key(alloc: Global, hours: &[Hour]) -> Result<String, AllocError>
    ensures { IfOk result (λ text. string_bytes text ≡ chart_key_of hours.now) }
{
    let swatches = swatches(alloc)?;
    let words = words(alloc, hours)?;
    format!(in alloc; "<p class=\"dim key\">{swatches}. {words}</p>\n")
}

/// The hatches of the cuts, which a page has once.
#[tactic(auto, unfolding(crate::specs::Key::chart_defs))]
pub fn chart_defs() -> &'static str
    ensures { result.now ≡ chart_defs_of }
{
    "<svg class=\"void\" aria-hidden=\"true\"><defs><pattern id=\"own\" width=\"6\" height=\"6\" patternUnits=\"userSpaceOnUse\"><path class=\"hatch\" d=\"M-1 1L1 -1M0 6L6 0M5 7L7 5\"/></pattern><pattern id=\"peer\" width=\"5\" height=\"5\" patternUnits=\"userSpaceOnUse\"><path class=\"hatch\" d=\"M0 2H5\"/></pattern></defs></svg>\n"
}
