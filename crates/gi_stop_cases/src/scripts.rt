//! What an office does in the exchange, beside taking what its peer sends.

use gi_calls::Fault;
use gi_desk::{Body, Call};
use gi_pairs::{Code, CycleId, Direction, Quantity};
use gi_processing::{Contract, Notice, Rule};
use std::alloc::Global;
use std::fmt::Write;

/// How many of its own calls record a fact each: a contract, a nomination and a closing.
pub const OWN: u32 = 3;

/// How many kinds of calls a seat makes, beside the taking of a packet.
pub const KINDS: u32 = 6;

/// The own calls of an office, each of which records a fact.
#[derive(Drop)]
pub struct Script {
    pub point: Code,
    pub id: CycleId,
    contract: Contract,
    document: Body,
}

/// A nomination of one line with the same quantity in 24 hours.
fn document(
    alloc: Global,
    point: Code,
    id: CycleId,
    (portfolio, counterparty): (Code, Code),
    quantity: Quantity,
) -> Result<Body, Fault> {
    let quantity = quantity.value();
    let day = id.day;
    let mut text = format!(in alloc;
        "{{\"kind\":\"NOMINT\",\"point\":\"{point}\",\"portfolio\":\"{portfolio}\",\"day\":\"{day}\",\"version\":1,\"lines\":[{{\"counterparty\":\"{counterparty}\",\"direction\":\"IM\",\"hours\":[{quantity}"
    )?;
    for _ in 1..24u8 {
        write!(text, ",{quantity}")?;
    }
    text.push_str("]}]}")?;
    Ok(Body::from(text.into_bytes()))
}

/// A contract of 1000 on the cycle's day.
fn contract_of(portfolio: Code, id: CycleId) -> Option<Contract> {
    Some(Contract {
        portfolio,
        day: id.day,
        direction: Direction::IM,
        firm: Quantity::new(1000).ok()?,
        interruptible: Quantity::new(0).ok()?,
    })
}

impl Script {
    /// The script of an office whose portfolio has a contract, and nominates so much with its
    /// counterparty.
    pub fn of(
        alloc: Global,
        point: Code,
        id: &CycleId,
        (portfolio, counterparty): (Code, Code),
        quantity: Quantity,
    ) -> Result<Option<Script>, Fault> {
        let Some(contract) = contract_of(portfolio, *id) else {
            return Ok(None);
        };
        Ok(Some(Script {
            point,
            id: *id,
            contract,
            document: document(alloc, point, *id, (portfolio, counterparty), quantity)?,
        }))
    }

    /// A call of each kind but the taking of a packet, the own ones first.
    pub fn call(&self, number: u32) -> Option<Call> {
        Some(match number {
            0 => Call::Contract(self.contract),
            1 => Call::Submit(self.document.copy().ok()?),
            2 => Call::Close {
                id: self.id,
                rule: Rule::Two,
            },
            3 => Call::Resend(self.id),
            4 => Call::Notice(Notice {
                day: self.id.day,
                direction: Direction::IM,
                first: 1,
                last: 24,
                firm: 1000,
                interruptible: 1000,
            }),
            _ => Call::Halt,
        })
    }
}
