//! What leaves a desk: packets, each with its recipient and its bytes.

ghost use Rattle.std.specs.Prelude.{◌≡◌, IfOk};
ghost use Rattle.gi_messages.specs.Writing.{text_of};

use gi_messages::{Message, encode};
use gi_pairs::Code;
use std::alloc::{AllocError, Global};
use std::marker::Model;

/// To whom a packet goes.
#[derive(Clone, Copy, Debug, PartialEq, Eq)]
pub enum Recipient {
    /// The other operator.
    Peer,
    /// The shipper with this portfolio.
    User(Code),
}

/// The bytes of a message.
#[derive(Drop)]
pub struct Body {
    bytes: Vec<u8>,
}

impl Model for Body {
    ghost use Rattle.std.specs.Prelude.{List, ℕ};

    ghost Value = { List ℕ };

    ghost view = { λ b. b.bytes.items };
}

impl From<Vec<u8>> for Body {
    ghost from_gives = { λ bytes body. body ≡ bytes.items };

    fn from(bytes: Vec<u8>) -> Body {
        Body { bytes }
    }
}

impl Body {
    /// The bytes.
    pub fn as_slice(&self) -> &[u8]
        ensures { result.now ≡ self.now }
    {
        &self.bytes
    }

    /// The bytes, with the memory that they were given in.
    pub fn into_vec(self) -> Vec<u8>
        ensures { result.items ≡ self }
    {
        self.bytes
    }

    /// Equal bytes.
    pub fn copy(&self) -> Result<Body, AllocError>
        ensures { IfOk result (λ body. body ≡ self.now) }
    {
        let alloc = *self.bytes.allocator();
        Ok(Body::from(Vec::from_slice(alloc, &self.bytes)?))
    }
}

/// A message that a desk lets out.
#[derive(Drop)]
pub struct Packet {
    pub to: Recipient,
    pub body: Body,
}

impl Packet {
    pub(crate) fn of(alloc: Global, to: Recipient, message: &Message) -> Result<Packet, AllocError>
        ensures { IfOk result (λ packet. packet ≡ record { to = to; body = text_of message.now }) }
    {
        Ok(Packet {
            to,
            body: Body::from(encode(alloc, message)?),
        })
    }

    /// An equal packet.
    pub fn copy(&self) -> Result<Packet, AllocError>
        ensures { IfOk result (λ packet. packet ≡ self.now) }
    {
        Ok(Packet {
            to: self.to,
            body: self.body.copy()?,
        })
    }
}

/// Packets in the order in which they are let out.
#[derive(Drop)]
pub struct Packets {
    packets: Vec<Packet>,
}

impl Model for Packets {
    ghost use Rattle.std.specs.Prelude.{List};
    ghost use Rattle.gi_desk.specs.declared.packet.Packet.{Packet};

    ghost Value = { List Packet };

    ghost view = { λ p. p.packets.items };
}

impl From<Vec<Packet>> for Packets {
    ghost from_gives = { λ list packets. packets ≡ list.items };

    fn from(packets: Vec<Packet>) -> Packets {
        Packets { packets }
    }
}

impl Packets {
    /// The packets, in order.
    pub fn as_slice(&self) -> &[Packet]
        ensures { result.now ≡ self.now }
    {
        &self.packets
    }

    /// The packets, in order, with the memory that they were given in.
    pub fn into_vec(self) -> Vec<Packet>
        ensures { result.items ≡ self }
    {
        self.packets
    }
}
