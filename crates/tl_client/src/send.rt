//! The messages that a client hands out. The parts of one that no beat carries are zero.

ghost use Rattle.std.specs.Prelude.{◌≡◌, ◌<◌, ◌^◌};
ghost use Rattle.tl_beat.specs.statement.Width.{IsWidth};
ghost use Rattle.tl_burst.specs.declared.message.Message.TheVariants as message;
ghost use Rattle.tl_client.specs.statement.Send;

use tl_beat::opcode::{OpA, OpB, OpC};
use tl_burst::message::{MessageA, MessageC};
use tl_rules::param::{Grow, Prune, Report};
use tl_rules::perm::Perm;

/// An Acquire of a block, without its source.
pub fn acquisition<const W: usize>(opcode: OpA, grow: Grow, block: u16) -> MessageA<W>
    requires { IsWidth W }
    ensures { result ≡ Send.acquisition opcode grow 0 block }
{
    MessageA {
        opcode,
        param: grow.param(),
        size: 6,
        source: 0,
        address: 64 * u32::from(block),
        payload: [0; 64],
        mask: (1 << W) - 1,
        corrupt: 0,
    }
}

/// A message of channel C about a block.
fn about<const W: usize>(
    opcode: OpC,
    param: u8,
    source: u8,
    block: u32,
    payload: [u8; 64],
) -> MessageC<W>
    requires { block < 2 ^ 26 }
    ensures { result ≡ Send.about opcode param source block payload }
{
    MessageC {
        opcode,
        param,
        size: 6,
        source,
        address: 64 * block,
        payload,
        corrupt: 0,
    }
}

/// A Release of a block. It carries the copy if its prune starts from Trunk.
pub fn release<const W: usize>(prune: Prune, source: u8, block: u16, copy: [u8; 64]) -> MessageC<W>
    ensures { message.C result ≡ Send.release prune source block copy }
{
    let block = u32::from(block);
    match prune {
        Prune::TtoB | Prune::TtoN => about(OpC::ReleaseData, prune.param(), source, block, copy),
        Prune::BtoN => about(OpC::Release, prune.param(), source, block, [0; 64]),
    }
}

/// A ProbeAck. It carries the copy if it answers a ProbeBlock and Trunk is held.
pub fn probe_ack<const W: usize>(
    opcode: OpB,
    held: Perm,
    report: Report,
    block: u32,
    copy: [u8; 64],
) -> MessageC<W>
    requires { block < 2 ^ 26 }
    ensures { message.C result ≡ Send.probe_ack opcode held report block copy }
{
    match (opcode, held) {
        (OpB::ProbeBlock, Perm::Trunk) => {
            about(OpC::ProbeAckData, report.param(), 0, block, copy)
        }
        _ => about(OpC::ProbeAck, report.param(), 0, block, [0; 64]),
    }
}
