//! An operation of a client in C.

ghost use Rattle.std.specs.Prelude.{◌≡◌, option_map};
ghost use Rattle.tl_pictures.specs.statement.Operation.{acquire_of, release_of, access_of, asked_for};

use tl_beat::opcode::OpA;
use tl_burst::message::{Message, MessageA};
use tl_client::operation::Op;
use tl_rules::param::{Grow, Prune};

/// The fields of an operation. `kind` is 0 for a Load, 1 for a Store, 2 for an Acquire, 3 for an AcquireWhole, 4 for a
/// Release and 5 for an access. A field that the kind doesn't have isn't read.
#[repr(C)]
#[derive(Clone, Copy, Debug, PartialEq, Eq)]
pub struct Operation {
    /// Of an AcquireWhole, or the payload of an access.
    pub bytes: [u8; 64],
    /// Of a Store.
    pub value: u64,
    /// Of an access.
    pub mask: u64,
    /// Of a Load, a Store or an access.
    pub address: u32,
    /// Of an Acquire, an AcquireWhole or a Release.
    pub block: u16,
    pub kind: u8,
    /// Of an access.
    pub opcode: u8,
    /// Of an access; the grow of an Acquire; the prune of a Release.
    pub param: u8,
    /// Of a Load, a Store or an access.
    pub size: u8,
}

fn acquire<const W: usize>(x: &Operation) -> Option<Op<W>>
    ensures { result ≡ acquire_of W x.now }
{
    match Grow::from_param(x.param) {
        None => None,
        Some(grow) => Some(Op::Acquire {
            block: x.block,
            grow,
        }),
    }
}

fn release<const W: usize>(x: &Operation) -> Option<Op<W>>
    ensures { result ≡ release_of W x.now }
{
    match Prune::from_param(x.param) {
        None => None,
        Some(prune) => Some(Op::Release {
            block: x.block,
            prune,
        }),
    }
}

fn access<const W: usize>(x: &Operation) -> Option<Op<W>>
    ensures { result ≡ access_of W x.now }
{
    let Some(opcode) = OpA::with_code(x.opcode) else {
        return None;
    };
    if x.size > 6 {
        return None;
    }
    Some(Op::Access(Message::A(MessageA {
        opcode,
        param: x.param,
        size: x.size,
        source: 0,
        address: x.address,
        payload: x.bytes,
        mask: x.mask,
        corrupt: 0,
    })))
}

impl Operation {
    /// The operation with these fields, if there is one.
    pub fn operation<const W: usize>(&self) -> Option<Op<W>>
        ensures { result ≡ asked_for W self.now }
    {
        match self.kind {
            0 => Some(Op::Load {
                address: self.address,
                size: self.size,
            }),
            1 => Some(Op::Store {
                address: self.address,
                size: self.size,
                value: self.value,
            }),
            2 => acquire(self),
            3 => Some(Op::AcquireWhole {
                block: self.block,
                bytes: self.bytes,
            }),
            4 => release(self),
            5 => access(self),
            _ => None,
        }
    }
}
