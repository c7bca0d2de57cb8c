//! The messages that a manager hands out.

ghost use Rattle.std.specs.Prelude.{ℕ, ◌≡◌, ◌<◌, ◌==◌, ◌-◌, ◌^◌, is_some, unwrap_or, if◌then◌else◌, Bool, true, false};
ghost use Rattle.std.specs.Int.{bit_at};
ghost use Rattle.tl_beat.specs.statement.Width.{IsWidth};
ghost use Rattle.tl_beat.specs.declared.opcode.OpD.{OpD};
ghost use Rattle.tl_params.specs.statement.Param.{cap_code};
ghost use Rattle.tl_manager.specs.statement.Handing;
ghost use Rattle.tl_manager.specs.code.Granting;
ghost use Rattle.tl_manager.specs.statement.Handing.{probe_of_block};
ghost use Rattle.tl_manager.specs.statement.Holders.{clients_from};
ghost use Rattle.tl_manager.specs.code.Outbox.{messages_of};

use arrayvec::ArrayVec;
use tl_beat::beat::Link;
use tl_beat::opcode::{OpA, OpB, OpD};
use tl_burst::message::{Message, MessageA, MessageB, MessageD};
use tl_rules::answer::Answer;
use tl_rules::config::MOST_CLIENTS;
use tl_rules::param::{Cap, Grow};
use tl_rules::perm::Perm;
use tl_rules::profile::Profile;

/// Messages, in order, each with the link on which it is handed out.
pub type Handed<const W: usize> = ArrayVec<(Link, Message<W>), MOST_CLIENTS>;

/// The messages that are handed out for a beat, in compact form.
#[derive(Clone, Copy, Debug, PartialEq, Eq)]
pub enum Outbox<const W: usize> {
    /// No message.
    Nothing,
    /// One message, on this link.
    One((Link, Message<W>)),
    /// A Probe of a block for each client whose bit is set, the lowest client first.
    Probes { block: u16, cap: Cap, clients: u16 },
}

/// A Probe of a block.
pub fn probe<const W: usize>(block: u32, cap: Cap) -> Message<W>
    requires width { IsWidth W }
    requires small { block < 2 ^ 26 }
    ensures { result ≡ probe_of_block block cap }
{
    Message::B(MessageB {
        opcode: OpB::ProbeBlock,
        param: cap.param(),
        size: 6,
        source: 0,
        address: 64 * block,
        payload: [0; 64],
        mask: (1 << W) - 1,
        corrupt: 0,
    })
}

/// Probes of a block for the clients whose bit is set, the lowest client first.
fn probes<const W: usize>(block: u32, cap: Cap, clients: u16) -> Handed<W>
    requires width { IsWidth W }
    requires small { block < 2 ^ 26 }
    ensures { result.items ≡ Handing.probes block cap (clients_from 0 16 (λ c. bit_at clients c == 1)) }
{
    let mut handed = ArrayVec::new();
    for client in 0..16u8 {
        if (clients >> client) % 2 == 0 {
            continue;
        }
        handed.push((Link(client), probe(block, cap)));
    }
    handed
}

impl<const W: usize> Outbox<W> {
    /// The messages, in order.
    pub fn handed(self) -> Handed<W>
        requires { IsWidth W }
        ensures { result.items ≡ messages_of self.entry }
    {
        match self {
            Outbox::Nothing => ArrayVec::new(),
            Outbox::One(message) => {
                let mut handed = ArrayVec::new();
                handed.push(message);
                handed
            }
            Outbox::Probes {
                block,
                cap,
                clients,
            } => probes(u32::from(block), cap, clients),
        }
    }
}

/// An answer without sink to a request.
fn answer_with<const W: usize>(opcode: OpD, payload: [u8; 64], request: &MessageA<W>) -> Message<W>
    ensures { result ≡ Handing.answer_with opcode payload request.now }
{
    Message::D(MessageD {
        opcode,
        param: 0,
        size: request.size,
        source: request.source,
        sink: 0,
        denied: false,
        payload,
        corrupt: 0,
    })
}

/// The answer to an access.
pub fn access_answer<const W: usize>(request: &MessageA<W>, answer: Answer) -> Message<W>
    ensures { result ≡ Handing.access_answer request.now answer }
{
    match answer {
        Answer::Ack => answer_with(OpD::AccessAck, [0; 64], request),
        Answer::Hint => answer_with(OpD::HintAck, [0; 64], request),
        Answer::Data(payload) => answer_with(OpD::AccessAckData, payload, request),
    }
}

/// The answer to a Release with this source.
pub fn release_ack<const W: usize>(source: u8) -> Message<W>
    ensures { result ≡ Handing.release_ack source }
{
    Message::D(MessageD {
        opcode: OpD::ReleaseAck,
        param: 0,
        size: 6,
        source,
        sink: 0,
        denied: false,
        payload: [0; 64],
        corrupt: 0,
    })
}

/// The cap of a Grant. `unheld` says that no client is recorded with a copy.
pub fn cap_granted(profile: Profile, opcode: OpA, param: u8, unheld: bool) -> Cap
    ensures { result ≡ Handing.cap_granted profile opcode param unheld }
{
    if param != Grow::NtoB.param() {
        return Cap::ToT;
    }
    match (profile, opcode) {
        (Profile::Two, OpA::AcquireBlock) if unheld => Cap::ToT,
        _ => Cap::ToB,
    }
}

/// Whether a Grant carries the block, by the permission that its client is recorded with.
pub fn is_granted_data(opcode: OpA, param: u8, held: Perm) -> bool
    ensures { result ≡ Handing.is_granted_data opcode param held }
{
    opcode == OpA::AcquireBlock && !(param == Grow::BtoT.param() && held == Perm::Branch)
}

/// A Grant of this opcode.
fn grant_of_fields<const W: usize>(
    opcode: OpD,
    source: u8,
    sink: u8,
    cap: Cap,
    payload: [u8; 64],
) -> Message<W>
    ensures { result ≡ Granting.grant_of_fields opcode source sink cap payload }
{
    Message::D(MessageD {
        opcode,
        param: cap.param(),
        size: 6,
        source,
        sink,
        denied: false,
        payload,
        corrupt: 0,
    })
}

/// A Grant, with the bytes of its block if it carries them.
pub fn grant<const W: usize>(source: u8, sink: u8, cap: Cap, bytes: Option<[u8; 64]>) -> Message<W>
    ensures { result ≡ Granting.grant_of source sink cap bytes }
{
    match bytes {
        None => grant_of_fields(OpD::Grant, source, sink, cap, [0; 64]),
        Some(bytes) => grant_of_fields(OpD::GrantData, source, sink, cap, bytes),
    }
}
