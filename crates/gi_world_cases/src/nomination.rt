use gi_calls::Words;
use std::alloc::{AllocError, Global};

/// How many hours 2026-01-15 has.
const HOURS: u8 = 24;

/// Adds the quantity again for every hour but the first, and what ends a nomination.
fn add_later_hours(quantity: &str, text: &mut String) -> Result<(), AllocError> {
    for _ in 1..HOURS {
        write!(text, ",{quantity}")?;
    }
    text.push_str("]}]}")
}

/// A nomination for 2026-01-15 at BORDER-1, as a shipper writes it: one line, of one quantity in
/// every hour. The words are its portfolio, the counterparty, the direction, the version and the
/// quantity.
pub fn nomination(alloc: Global, mut words: Words<'_>) -> Result<String, AllocError> {
    let portfolio = words.next();
    let counterparty = words.next();
    let direction = words.next();
    let version = words.next();
    let quantity = words.next();
    let mut text = format!(in alloc;
        r#"{{"kind":"NOMINT","point":"BORDER-1","portfolio":"{portfolio}","day":"2026-01-15","version":{version},"lines":[{{"counterparty":"{counterparty}","direction":"{direction}","hours":[{quantity}"#
    )?;
    add_later_hours(quantity, &mut text)?;
    Ok(text)
}
