ghost use Rattle.std.specs.Prelude.{◌≡◌, ◌⊎◌, IfErr, IfOk, OnErr, OnOk, Some, option_map, string_bytes};
ghost use Rattle.gi_carrier.specs.Carrier.{given};
ghost use Rattle.gi_carrier.specs.Kept.{bytes_of};
ghost use Rattle.gi_desk.specs.Queries.{unsaved};
ghost use Rattle.gi_simulation.specs.OnItsWay.{AllIsDelivered, IsSound, OnlySentWaits, WereLetOut};
ghost use Rattle.gi_simulation.specs.Simulation.{after, after_step, answered, link_to, marking, moved_on, new_simulation, number_of as number_in, outcome_of, outcome_without, prepared, shown, side_of_step, step_of, with_link, with_packets};
ghost use Rattle.gi_simulation.specs.Trace.{carried_by, let_out, packet_lines, trace_of, where_asked};
ghost use Rattle.gi_world.specs.Headline.{OneConfirmedQuantity};
ghost use Rattle.gi_world.specs.Histories.{held};
ghost use Rattle.gi_world.specs.World.{after as world_after, outcome as world_outcome, other, station_of};
ghost use Rattle.gi_script.specs.declared.instruction.Instruction.TheVariants as instructions;
ghost use Rattle.gi_world.specs.declared.step.Step.TheVariants as steps;
ghost use Rattle.gi_world.specs.declared.start_fault.StartFault.TheVariants.{OutOfMemory};

use crate::link::Link;
use crate::outcome::Outcome;
use gi_carrier::Plan;
use gi_desk::{Answer, Call, Desk, Packet, Reply, Role};
use gi_pairs::{Code, Side};
use gi_script::Instruction;
use gi_world::{StartFault, Step, World, WorldFault, WorldReply};
use std::alloc::{AllocError, Global};
use std::marker::Model;

/// Both offices, and the carriers between them.
#[derive(Drop)]
pub struct Simulation {
    alloc: Global,
    world: World,
    to_initiating: Link,
    to_matching: Link,
}

impl Model for Simulation {
    ghost use Rattle.gi_simulation.specs.OnItsWay.{IsSound};
    ghost use Rattle.gi_simulation.specs.Simulation.{SimulationState};

    ghost Value = { SimulationState };

    ghost view = { λ s. record { world = s.world; to_initiating = s.to_initiating; to_matching = s.to_matching } };

    ghost invariant = { λ s. IsSound (record { world = s.world; to_initiating = s.to_initiating; to_matching = s.to_matching }) };
}

fn mark<R: Role>(desk: &Desk<R>) -> Result<Option<Call>, AllocError>
    ensures { IfOk result (λ call. call ≡ marking (unsaved desk.now)) }
{
    let Some((n, fact)) = desk.unsaved() else {
        return Ok(None);
    };
    Ok(Some(Call::MarkSaved {
        n,
        fact: fact.copy()?,
    }))
}

fn outcome(reply: &Reply) -> Outcome
    ensures { result ≡ answered reply.now.out reply.now.answer }
{
    match reply.answer {
        Answer::Recorded { n } => Outcome::Recorded(n),
        Answer::Repeat { n } => Outcome::Repeat(n),
        Answer::Kept { have, .. } => Outcome::Kept(have),
        Answer::Saved { n } => Outcome::Saved(n),
        Answer::Resent => Outcome::Resent(reply.out.as_slice().len()),
        Answer::Stopped => Outcome::Stopped,
        Answer::Refused(refusal) => Outcome::Refused(refusal),
    }
}

fn side_of(step: &Step) -> Side
    ensures { result ≡ side_of_step step.now }
{
    match step {
        Step::Local { side, .. } | Step::Deliver { side, .. } | Step::Restart { side, .. } => *side,
    }
}

fn without_step(instruction: &Instruction) -> Option<Outcome>
    ensures { result ≡ outcome_without instruction.now }
{
    match instruction {
        Instruction::Plan { .. } => None,
        _ => Some(Outcome::Nothing),
    }
}

impl Simulation {
    /// Both offices without facts, at the interconnection point, and nothing on its way between
    /// them. `OutOfMemory` is the one fault.
    pub fn new(alloc: Global, point: Code) -> Result<Simulation, StartFault>
        ensures value { IfOk result (λ simulation. simulation ≡ new_simulation point) }
        ensures refused { IfErr result (λ fault. fault ≡ OutOfMemory) }
    {
        let world = World::new(alloc, point)?;
        let Ok(to_initiating) = Link::new(alloc) else {
            // (handed to drop, by one call: going out of scope here would be checked field by field on each way out)
            drop(world);
            return Err(StartFault::OutOfMemory);
        };
        let Ok(to_matching) = Link::new(alloc) else {
            drop((world, to_initiating));
            return Err(StartFault::OutOfMemory);
        };
        Ok(Simulation {
            alloc,
            world,
            to_initiating,
            to_matching,
        })
    }

    /// Both desks, and what each let out: every quantity that either side has confirmed or told is the
    /// lower of the two that both froze when they closed its cycle. Only what the other side let out
    /// is on its way to a side, so that it can be delivered.
    pub fn world(&self) -> &World
        ensures value { result.now ≡ self.now.world }
        ensures one_quantity { OneConfirmedQuantity (held result.now) }
        ensures waits { OnlySentWaits self.now }
        ensures delivers { AllIsDelivered self.now }
    {
        &self.world
    }

    pub(crate) fn reveal_invariant(&self)
        ensures { IsSound self.now × AllIsDelivered self.now }
    {
        let _ = self.world();
    }

    fn set(&mut self, side: Side, plan: &Plan) -> Result<(), AllocError>
        ensures next { OnOk result (self.new ≡ with_link side (record { carrier = (link_to side self.old).carrier; plan = plan.now }) self.old) }
        ensures unchanged { OnErr result (self.new ≡ self.old) }
    {
        match side {
            Side::I => self.to_initiating.set(plan),
            Side::M => self.to_matching.set(plan),
        }
    }

    fn next(&mut self, side: Side) -> Result<Option<Vec<u8>>, AllocError>
        ensures given { IfOk result (λ message. option_map bytes_of message ≡ given (link_to side self.old).plan (link_to side self.old).carrier) }
        ensures next { OnOk result (self.new ≡ with_link side (moved_on (link_to side self.old)) self.old) }
        ensures unchanged { OnErr result (self.new ≡ self.old) }
    {
        match side {
            Side::I => self.to_initiating.next(),
            Side::M => self.to_matching.next(),
        }
    }

    fn send(&mut self, side: Side, packets: Vec<Packet>) -> Result<(), AllocError>
        requires { WereLetOut (other side) self.now.world packets.items }
        ensures next { OnOk result (self.new ≡ with_link side (with_packets (link_to side self.old) packets.items) self.old) }
        ensures world { self.new.world ≡ self.old.world }
    {
        match side {
            Side::I => self.to_initiating.send_packets(packets),
            Side::M => self.to_matching.send_packets(packets),
        }
    }

    fn mark(&self, side: Side) -> Result<Option<Step>, AllocError>
        ensures { IfOk result (λ step. step ≡ option_map (steps.Local side) (marking (unsaved (station_of side self.now.world).desk))) }
    {
        let call = match side {
            Side::I => mark(self.world.initiating())?,
            Side::M => mark(self.world.matching())?,
        };
        Ok(call.map(|call| Step::Local { side, call }))
    }

    #[tactic(auto, using(crate::proofs::Numbers::number_is))]
    fn number_of(&self, side: Side, bytes: &[u8]) -> Option<u64>
        ensures { result ≡ number_in self.now.world side bytes.now }
    {
        self.world.number_of(side, bytes)
    }

    fn carry(&mut self, side: Side) -> Result<Option<Step>, AllocError>
        ensures step { IfOk result (λ step. step ≡ step_of self.old (instructions.Carry side)) }
        ensures next { OnOk result (self.new ≡ prepared self.old (instructions.Carry side)) }
        ensures world { self.new.world ≡ self.old.world }
    {
        let Some(message) = self.next(side)? else {
            return Ok(None);
        };
        Ok(
            self.number_of(side, &message)
                .map(|packet| Step::Deliver { side, packet }),
        )
    }

    fn prepare(&mut self, instruction: &Instruction) -> Result<Option<Step>, AllocError>
        ensures step { IfOk result (λ step. step ≡ step_of self.old instruction.now) }
        ensures next { OnOk result (self.new ≡ prepared self.old instruction.now) }
        ensures world { self.new.world ≡ self.old.world }
    {
        Ok(match instruction {
            Instruction::Call { side, call } => Some(Step::Local {
                side: *side,
                call: call.copy()?,
            }),
            Instruction::Save { side, .. } => self.mark(*side)?,
            Instruction::Deliver { side, packet } => Some(Step::Deliver {
                side: *side,
                packet: *packet as u64,
            }),
            Instruction::Restart { side, keep } => Some(Step::Restart {
                side: *side,
                keep: *keep,
            }),
            Instruction::Plan { side, plan } => {
                self.set(*side, plan)?;
                None
            }
            Instruction::Carry { side } => self.carry(*side)?,
        })
    }

    fn way_to(&self, side: Side) -> &Link
        ensures { result.now ≡ link_to side self.now }
    {
        match side {
            Side::I => &self.to_initiating,
            Side::M => &self.to_matching,
        }
    }

    fn carried_line(&self, instruction: &Instruction) -> Result<String, AllocError>
        ensures { IfOk result (λ text. string_bytes text ≡ carried_by self.now instruction.now) }
    {
        match instruction {
            Instruction::Carry { side } => self.way_to(*side).carried_line(),
            _ => Ok(String::new(self.alloc)),
        }
    }

    fn carried(&self, instruction: &Instruction, trace: bool) -> Result<String, AllocError>
        ensures { IfOk result (λ text. string_bytes text ≡ where_asked trace (carried_by self.now instruction.now)) }
    {
        if !trace {
            return Ok(String::new(self.alloc));
        }
        self.carried_line(instruction)
    }

    fn told(&self, peer: Side, packets: &[Packet], trace: bool) -> Result<String, AllocError>
        ensures { IfOk result (λ text. string_bytes text ≡ where_asked trace (packet_lines peer (link_to peer self.now) packets.now)) }
    {
        if !trace {
            return Ok(String::new(self.alloc));
        }
        self.way_to(peer).packet_lines(peer, packets)
    }

    fn step(&mut self, step: &Step, trace: bool) -> Result<(Outcome, String), AllocError>
        ensures outcome { IfOk result (λ it. it.0 ≡ shown (world_outcome self.old.world step.now)) }
        ensures lines { IfOk result (λ it. string_bytes it.1 ≡ where_asked trace (let_out self.old (Some step.now))) }
        ensures next { OnOk result (self.new ≡ after_step self.old step.now) }
        ensures world { OnErr result ((self.new.world ≡ self.old.world) ⊎ (self.new.world ≡ world_after self.old.world step.now)) }
    {
        let reply = match self.world.step(step) {
            Ok(WorldReply::Desk(reply)) => reply,
            Ok(WorldReply::Restarted { saved }) => {
                return Ok((Outcome::Restarted(saved), String::new(self.alloc)));
            }
            Err(WorldFault::OutOfMemory) => return Err(AllocError),
            Err(fault) => return Ok((Outcome::NotMade(fault), String::new(self.alloc))),
        };
        let outcome = outcome(&reply);
        let peer = side_of(step).other();
        let Ok(lines) = self.told(peer, reply.out.as_slice(), trace) else {
            drop(reply);
            return Err(AllocError);
        };
        let Ok(()) = self.send(peer, reply.out.into_vec()) else {
            drop(lines);
            return Err(AllocError);
        };
        Ok((outcome, lines))
    }

    /// Makes an instruction's step as `make` does, and answers with what comes of it and, where `trace`, with
    /// the lines that tell which messages moved; else with none.
    pub fn make_traced(
        &mut self,
        instruction: &Instruction,
        trace: bool,
    ) -> Result<(Option<Outcome>, String), AllocError>
        ensures outcome { IfOk result (λ it. it.0 ≡ outcome_of self.old instruction.now) }
        ensures lines { IfOk result (λ it. string_bytes it.1 ≡ where_asked trace (trace_of self.old instruction.now)) }
        ensures next { OnOk result (self.new ≡ after self.old instruction.now) }
        ensures delivers { AllIsDelivered self.old }
        ensures world { OnErr result ((self.new.world ≡ self.old.world) ⊎ (self.new.world ≡ (after self.old instruction.now).world)) }
    {
        self.reveal_invariant();
        let mut lines = self.carried(instruction, trace)?;
        let Some(step) = self.prepare(instruction)? else {
            return Ok((without_step(instruction), lines));
        };
        let made = self.step(&step, trace);
        drop(step);
        let (outcome, out) = made?;
        lines.push_str(out.as_str())?;
        Ok((Some(outcome), lines))
    }

    /// Makes an instruction's step once; of `save`, one mark. What comes of it, and nothing of a plan
    /// line, which only sets the plan: the carrier's position stays. What a carrier gives is always
    /// delivered. Where memory runs out the world is as it was or has made the step, and the carriers
    /// may have lost messages.
    pub fn make(&mut self, instruction: &Instruction) -> Result<Option<Outcome>, AllocError>
        ensures outcome { IfOk result (λ outcome. outcome ≡ outcome_of self.old instruction.now) }
        ensures next { OnOk result (self.new ≡ after self.old instruction.now) }
        ensures delivers { AllIsDelivered self.old }
        ensures world { OnErr result ((self.new.world ≡ self.old.world) ⊎ (self.new.world ≡ (after self.old instruction.now).world)) }
    {
        let (outcome, _) = self.make_traced(instruction, false)?;
        Ok(outcome)
    }
}
