//! Which session gets which submission of a batch.

ghost use Rattle.std.specs.Prelude.{◌≡◌, ◌≤◌, ◌<◌, All, IfOk, map};
ghost use Rattle.std.specs.List.{position};
ghost use Rattle.gi_serving.specs.Assigning.{IsNumber, in_order as order_of, is_same, place_in, portfolios_of, session_of, sessions_of as sessions_for};

use gi_desk::Body;
use gi_pairs::Code;
use gi_reports::refused_counts;
use gi_simulation::portfolio_of;
use std::alloc::{AllocError, Global};

fn portfolios(alloc: Global, bodies: &[Body]) -> Result<Vec<Option<Code>>, AllocError>
    ensures { IfOk result (λ portfolios. portfolios.items ≡ portfolios_of bodies.now) }
{
    let mut portfolios = Vec::with_capacity(alloc, bodies.len())?;
    for body in bodies {
        portfolios.push(portfolio_of(alloc, body.as_slice())?)?;
    }
    Ok(portfolios)
}

fn found(order: &[Code], portfolio: Code) -> Option<usize>
    ensures { result ≡ position (λ other. is_same other portfolio) order.now }
{
    order.iter().position(|other| *other == portfolio)
}

#[tactic(auto, using(crate::proofs::Ordering::placed))]
fn place(order: &[Code], portfolio: Code) -> usize
    ensures { result ≡ place_in order.now portfolio }
{
    found(order, portfolio).unwrap_or(order.len())
}

/// The portfolios of the counts, which come in order of first appearance; the counts are not needed.
fn in_order(alloc: Global, portfolios: &[Option<Code>]) -> Result<Vec<Code>, AllocError>
    ensures { IfOk result (λ order. order.items ≡ order_of portfolios.now) }
{
    let counts = refused_counts(alloc, portfolios)?;
    let mut order = Vec::with_capacity(alloc, counts.len())?;
    for (portfolio, _) in &counts {
        if let Some(code) = portfolio {
            order.push(*code)?;
        }
    }
    Ok(order)
}

fn session(sessions: u8, order: &[Code], portfolio: Option<Code>) -> u8
    requires some { 1 ≤ sessions }
    requires few { sessions < 16 }
    ensures session { result ≡ session_of sessions order.now portfolio }
    ensures number { IsNumber sessions result }
{
    match portfolio {
        Some(code) => (place(order, code) % sessions as usize) as u8 + 1,
        None => 1,
    }
}

/// The sessions of submissions of these portfolios, which appear first in this order.
fn numbers_in(
    alloc: Global,
    sessions: u8,
    order: &[Code],
    portfolios: &[Option<Code>],
) -> Result<Vec<u8>, AllocError>
    requires some { 1 ≤ sessions }
    requires few { sessions < 16 }
    ensures sessions { IfOk result (λ numbers. numbers.items ≡ map (session_of sessions order.now) portfolios.now) }
    ensures numbers { IfOk result (λ numbers. All (IsNumber sessions) numbers.items) }
{
    let mut numbers = Vec::with_capacity(alloc, portfolios.len())?;
    for portfolio in portfolios {
        numbers.push(session(sessions, order, *portfolio))?;
    }
    Ok(numbers)
}

/// For each submission of a batch at one side the session, from 1 up to the number of sessions, from
/// 1 to 15, that submits it: all those of a portfolio go to one session, and the portfolios go round
/// the sessions in order of first appearance; what is no nomination goes to the first session. Only
/// memory is refused.
pub fn sessions_of(alloc: Global, sessions: u8, bodies: &[Body]) -> Result<Vec<u8>, AllocError>
    requires some { 1 ≤ sessions }
    requires few { sessions < 16 }
    ensures sessions { IfOk result (λ numbers. numbers.items ≡ sessions_for sessions bodies.now) }
    ensures numbers { IfOk result (λ numbers. All (IsNumber sessions) numbers.items) }
{
    let portfolios = portfolios(alloc, bodies)?;
    // (handed to drop, by one call: going out of scope here would be checked field by field on each way out)
    let Ok(order) = in_order(alloc, &portfolios) else {
        drop(portfolios);
        return Err(AllocError);
    };
    let numbers = numbers_in(alloc, sessions, &order, &portfolios);
    drop(portfolios);
    drop(order);
    numbers
}
