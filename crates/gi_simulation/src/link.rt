ghost use Rattle.std.specs.Prelude.{◌≡◌, ◌<◌, IfOk, OnErr, OnOk, length, option_map, string_bytes, true};
ghost use Rattle.gi_carrier.specs.Carrier.{IsPlan, given};
ghost use Rattle.gi_carrier.specs.Kept.{bytes_of};
ghost use Rattle.gi_carrier.specs.Limits.{most_waiting};
ghost use Rattle.gi_desk.specs.Machine.{is_for_peer};
ghost use Rattle.gi_simulation.specs.OnItsWay.{WaitedOrCame};
ghost use Rattle.gi_simulation.specs.Simulation.{LinkState, moved_on, new_link, with_message, with_packet, with_packets};
ghost use Rattle.gi_simulation.specs.Trace.{carried_line as carried_line_of, packet_lines as packet_lines_of};

use crate::trace::{moved_line, packet_line};
use gi_carrier::{Carrier, MOST_WAITING, Move, Plan, SendFault};
use gi_desk::{Packet, Recipient};
use gi_pairs::Side;
use std::alloc::{AllocError, Global};
use std::marker::Model;

/// The way to one side: what is on it, and the plan by which that comes.
#[derive(Drop)]
pub struct Link {
    alloc: Global,
    carrier: Carrier,
    plan: Plan,
}

impl Model for Link {
    ghost use Rattle.gi_simulation.specs.Simulation.{LinkState};

    ghost Value = { LinkState };

    ghost view = { λ l. record { carrier = l.carrier; plan = l.plan } };
}

fn plan_of(alloc: Global, plan: &[Move]) -> Result<Plan, AllocError>
    requires { IsPlan plan.now }
    ensures { IfOk result (λ copy. copy ≡ plan.now) }
{
    let moves = Vec::from_slice(alloc, plan)?;
    Ok(Plan::build(moves).unwrap())
}

/// How many wait on a way where so many waited before a packet came.
fn waiting_after(waiting: usize, packet: &Packet) -> usize
    ensures { (link : LinkState) → length link.carrier.waiting ≡ waiting → length (with_packet link packet.now).carrier.waiting ≡ result }
{
    match packet.to {
        Recipient::Peer if waiting < MOST_WAITING => waiting + 1,
        _ => waiting,
    }
}

impl Link {
    /// A way with nothing on it, all of which comes. `OutOfMemory`.
    pub fn new(alloc: Global) -> Result<Link, AllocError>
        ensures { IfOk result (λ link. link ≡ new_link) }
    {
        Ok(Link {
            alloc,
            carrier: Carrier::new(alloc),
            plan: plan_of(alloc, &[Move::Pass])?,
        })
    }

    /// Sets the plan; the position stays. Where memory runs out it is as it was.
    pub fn set(&mut self, plan: &Plan) -> Result<(), AllocError>
        ensures next { OnOk result (self.new ≡ record { carrier = self.old.carrier; plan = plan.now }) }
        ensures unchanged { OnErr result (self.new ≡ self.old) }
    {
        self.plan = plan_of(self.alloc, plan.as_slice())?;
        Ok(())
    }

    fn send(&mut self, message: Vec<u8>) -> Result<(), AllocError>
        ensures unchanged { OnErr result (self.new ≡ self.old) }
        ensures sent { OnOk result (self.new ≡ with_message self.old message.items) }
        ensures room { OnErr result (length self.old.carrier.waiting < most_waiting) }
    {
        match self.carrier.send(message) {
            Err((_, SendFault::OutOfMemory)) => Err(AllocError),
            _ => Ok(()),
        }
    }

    fn send_packet(&mut self, packet: Packet) -> Result<(), AllocError>
        ensures unchanged { OnErr result (self.new ≡ self.old) }
        ensures sent { OnOk result (self.new ≡ with_packet self.old packet) }
        ensures room { OnErr result (length self.old.carrier.waiting < most_waiting) }
        ensures for_peer { OnErr result (is_for_peer packet ≡ true) }
    {
        match packet.to {
            Recipient::Peer => self.send(packet.body.into_vec()),
            Recipient::User(_) => Ok(()),
        }
    }

    /// Sends those of the packets that are for the peer; one that finds the carrier full is lost. Where memory
    /// runs out, some are sent; it never does where the carrier was full.
    pub fn send_packets(&mut self, packets: Vec<Packet>) -> Result<(), AllocError>
        ensures sent { OnOk result (self.new ≡ with_packets self.old packets.items) }
        ensures room { OnErr result (length self.old.carrier.waiting < most_waiting) }
        ensures came { WaitedOrCame self.old packets.items self.new }
    {
        for packet in packets {
            self.send_packet(packet)?;
        }
        Ok(())
    }

    /// What comes by one move of the carrier, if anything. Where memory runs out it is as it was.
    pub fn next(&mut self) -> Result<Option<Vec<u8>>, AllocError>
        ensures given { IfOk result (λ message. option_map bytes_of message ≡ given self.old.plan self.old.carrier) }
        ensures next { OnOk result (self.new ≡ moved_on self.old) }
        ensures unchanged { OnErr result (self.new ≡ self.old) }
    {
        self.carrier.next(&self.plan)
    }

    /// The line that tells what the carrier does next, with the message that waits first; none where nothing waits.
    pub(crate) fn carried_line(&self) -> Result<String, AllocError>
        ensures { IfOk result (λ text. string_bytes text ≡ carried_line_of self.now) }
    {
        let next = self.carrier.coming_move(&self.plan);
        moved_line(self.alloc, next, self.carrier.first())
    }

    /// The lines that tell of packets, of which those for the peer come to this way.
    pub(crate) fn packet_lines(&self, peer: Side, packets: &[Packet]) -> Result<String, AllocError>
        ensures { IfOk result (λ text. string_bytes text ≡ packet_lines_of peer self.now packets.now) }
    {
        let mut text = String::new(self.alloc);
        let mut waiting = self.carrier.len();
        for packet in packets {
            let line = packet_line(self.alloc, peer, waiting, packet)?;
            text.push_str(line.as_str())?;
            waiting = waiting_after(waiting, packet);
        }
        Ok(text)
    }
}
