//! Numbers in text.

ghost use Rattle.std.specs.Prelude.{◌≡◌, IfOk, string_bytes};
ghost use Rattle.gi_picture.specs.Numbers.{cell as cell_of, difference as difference_of, grouped as grouped_of, groups as groups_of, three_digits as three_digits_of};

use std::alloc::{AllocError, Global};

fn three_digits(alloc: Global, n: u128) -> Result<String, AllocError>
    ensures { IfOk result (λ text. string_bytes text ≡ three_digits_of n) }
{
    let (hundreds, tens, ones) = (n / 100 % 10, n / 10 % 10, n % 10);
    format!(in alloc; "{hundreds}{tens}{ones}")
}

fn groups(alloc: Global, more: u8, n: u128) -> Result<String, AllocError>
    ensures { IfOk result (λ text. string_bytes text ≡ groups_of more n) }
{
    if more == 0 {
        return format!(in alloc; "{n}");
    }
    if n < 1000 {
        return format!(in alloc; "{n}");
    }
    let front = groups(alloc, more - 1, n / 1000)?;
    let last = three_digits(alloc, n)?;
    format!(in alloc; "{front},{last}")
}

/// A number with a comma before each three digits.
#[tactic(auto, unfolding(crate::specs::Numbers::grouped))]
pub fn grouped(alloc: Global, n: u128) -> Result<String, AllocError>
    ensures { IfOk result (λ text. string_bytes text ≡ grouped_of n) }
{
    groups(alloc, 12, n)
}

/// The first number less the second, with its sign.
#[tactic(auto, unfolding(crate::specs::Numbers::difference))]
pub fn difference(alloc: Global, n: u128, less: u128) -> Result<String, AllocError>
    ensures { IfOk result (λ text. string_bytes text ≡ difference_of n less) }
{
    if less < n {
        let size = grouped(alloc, n - less)?;
        return format!(in alloc; "+{size}");
    }
    if n < less {
        let size = grouped(alloc, less - n)?;
        return format!(in alloc; "&minus;{size}");
    }
    format!(in alloc; "0")
}

/// A number, and a dash where there is none.
#[tactic(auto, unfolding(crate::specs::Numbers::cell))]
pub fn cell(alloc: Global, number: Option<u64>) -> Result<String, AllocError>
    ensures { IfOk result (λ text. string_bytes text ≡ cell_of number) }
{
    match number {
        Some(n) => grouped(alloc, u128::from(n)),
        None => format!(in alloc; "&ndash;"),
    }
}
