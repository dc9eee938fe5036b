ghost use Rattle.std.specs.Prelude.{◌≡◌, ◌++◌, IfOk, OnOk, string_bytes};
ghost use Rattle.gi_live.specs.Answers.{fact_part as fact_part_of, packet_text, recipient_part as recipient_part_of};

use gi_desk::{Packet, Recipient};
use std::alloc::{AllocError, Global};

fn fact_part(alloc: Global, fact: Option<u32>) -> Result<String, AllocError>
    ensures { IfOk result (λ text. string_bytes text ≡ fact_part_of fact) }
{
    match fact {
        Some(n) => format!(in alloc; "{{\"fact\":{n},\"message\":"),
        None => format!(in alloc; "{{\"message\":"),
    }
}

fn recipient_part(alloc: Global, to: Recipient) -> Result<String, AllocError>
    ensures { IfOk result (λ text. string_bytes text ≡ recipient_part_of to) }
{
    match to {
        Recipient::Peer => format!(in alloc; ",\"to\":\"peer\"}}\n"),
        Recipient::User(code) => format!(in alloc; ",\"to\":\"{code}\"}}\n"),
    }
}

/// The line of a packet, such as `{"fact":2,"message":{..},"to":"A"}`: the number of the fact that lets it out, where one is
/// named, the very message, and its recipient, `peer` for the other operator.
pub fn packet_line(alloc: Global, fact: Option<u32>, packet: &Packet) -> Result<Vec<u8>, AllocError>
    ensures { IfOk result (λ text. text.items ≡ packet_text fact packet.now) }
{
    let mut text = fact_part(alloc, fact)?.into_bytes();
    text.extend_from_slice(packet.body.as_slice())?;
    let to = recipient_part(alloc, packet.to)?;
    text.extend_from_slice(to.as_bytes())?;
    Ok(text)
}
