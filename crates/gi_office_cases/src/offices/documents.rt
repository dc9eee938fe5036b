//! Documents that nominate nothing.

use gi_calls::Fault;
use gi_desk::Body;
use gi_pairs::Code;
use std::alloc::Global;

/// A document of the portfolio, with this version.
fn document(alloc: Global, portfolio: Code, version: u32) -> Result<Body, Fault> {
    let text = format!(in alloc;
        "{{\"kind\":\"NOMINT\",\"point\":\"BORDER-1\",\"portfolio\":\"{portfolio}\",\"day\":\"2026-01-15\",\"version\":{version},\"lines\":[]}}"
    )?;
    Ok(Body::from(text.into_bytes()))
}

/// Documents of the portfolio, with the versions from 1 up to this many.
pub fn documents(alloc: Global, portfolio: Code, count: u32) -> Result<Vec<Body>, Fault> {
    let mut bodies = Vec::new(alloc);
    for before in 0..count {
        bodies.push(document(alloc, portfolio, before.wrapping_add(1))?)?;
    }
    Ok(bodies)
}
