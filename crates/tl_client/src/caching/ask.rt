//! The replies of a caching client to operations.

ghost use Rattle.std.specs.Prelude.{◌≡◌, ◌<◌, ◌≤◌, ◌/◌, not, IsTrue, None};
ghost use Rattle.tl_client.specs.statement.Answer.{handed, replied};
ghost use Rattle.tl_client.specs.statement.Ask;
ghost use Rattle.tl_client.specs.statement.Ask.{breaks_b3};
ghost use Rattle.tl_client.specs.code.Caching.{busy_by, bytes_in, free_in, load_reply, Does, Sends};
ghost use Rattle.tl_client.specs.statement.Requests.{start_with};
ghost use Rattle.tl_rules.specs.statement.Legality.{is_aligned};

use super::Caching;
use crate::busy::Busy;
use crate::check::{check, op_block};
use crate::operation::Op;
use crate::release::{Release, is_releasing};
use crate::reply::Reply;
use crate::request::{is_acquiring, start};
use crate::send::{acquisition, release};
use tl_beat::opcode::OpA;
use tl_burst::message::{Message, MessageA};
use tl_rules::key::block_at;
use tl_rules::param::{Grow, Prune};
use tl_rules::perm::Perm;
use tl_rules::place::{Span, number_at, write_number};

/// Whether an operation asks for a permission or gives one up.
fn is_transfer<const W: usize>(operation: &Op<W>) -> bool
    ensures { result ≡ Ask.is_transfer operation.now }
{
    matches!(
        operation,
        Op::Acquire { .. } | Op::AcquireWhole { .. } | Op::Release { .. }
    )
}

/// Whether an operation starts from the permission held.
fn begins_at<const W: usize>(operation: &Op<W>, held: Perm) -> bool
    ensures { result ≡ not (breaks_b3 operation.now held) }
{
    match operation {
        Op::Acquire { grow, .. } => grow.left() == held,
        Op::AcquireWhole { .. } => held != Perm::Trunk,
        Op::Release { prune, .. } => prune.left() == held,
        _ => true,
    }
}

impl<const W: usize> Caching<W> {
    /// The bytes of the copy of a block; zeros if there is none.
    pub(super) fn bytes(&self, block: u32) -> [u8; 64]
        ensures { result ≡ bytes_in self.now block }
    {
        match self.table.copy(block) {
            Some(bytes) => bytes,
            None => [0; 64],
        }
    }

    /// The reason why an operation doesn't start, other than B1.
    pub(super) fn busy(&self, operation: &Op<W>) -> Option<Busy>
        ensures { result ≡ busy_by self.now operation.now }
    {
        if let Some(busy) = check(self.config.level, self.blocks, operation) {
            return Some(busy);
        }
        let block = op_block(operation);
        if is_transfer(operation)
            && (is_acquiring(&self.requests, block) || is_releasing(&self.releases, block))
        {
            return Some(Busy::B2);
        }
        if !begins_at(operation, self.table.held(block)) {
            return Some(Busy::B3);
        }
        None
    }

    /// Reads a number from the copy of a block.
    pub(super) fn load(&self, address: u32, size: u8) -> Reply
        requires small { size ≤ 3 }
        requires aligned { IsTrue (is_aligned address size) }
        ensures { result ≡ load_reply self.now address size }
    {
        let block = block_at(address);
        if self.table.held(block) == Perm::None {
            return Reply::Miss;
        }
        let span = Span::new::<W>(address, size);
        match self.table.copy_of(block) {
            Some(bytes) => Reply::Value(number_at(bytes, span.in_block, span.count)),
            None => Reply::Value(number_at(&[0; 64], span.in_block, span.count)),
        }
    }

    /// Writes a number to the copy of a block, if Trunk is held.
    pub(super) fn store(&mut self, address: u32, size: u8, value: u64) -> Reply
        requires small { size ≤ 3 }
        requires aligned { IsTrue (is_aligned address size) }
        requires inside { address / 64 < self.old.blocks }
        ensures { Does self.old self.new (Op.Store address size value) (result, None) }
    {
        let block = block_at(address);
        if self.table.held(block) != Perm::Trunk {
            return Reply::Miss;
        }
        let mut bytes = self.bytes(block);
        let span = Span::new::<W>(address, size);
        write_number(&mut bytes, span.in_block, span.count, value);
        self.table.set_copy(block, Some(bytes));
        Reply::Stored
    }

    /// Hands out a request if a source is free.
    fn request(&mut self, request: &MessageA<W>, message: &mut Message<W>) -> Reply
        ensures answer { replied result message.new
            ≡ start_with (free_in self.old.requests self.old.config.sources) request.now }
        ensures sends { Sends self.old self.new (handed result message.new) }
        ensures left { handed result message.new ≡ None → message.new ≡ message.old }
    {
        start(&mut self.requests, self.config.sources, request, message)
    }

    /// Hands out an AcquirePerm for a whole block, if a source is free.
    fn acquire_whole(&mut self, block: u16, bytes: &[u8; 64], message: &mut Message<W>) -> Reply
        requires inside { block < self.old.blocks }
        ensures does { Does self.old self.new (Op.AcquireWhole block bytes.now) (replied result message.new) }
        ensures left { handed result message.new ≡ None → message.new ≡ message.old }
    {
        let grow = match self.table.held(u32::from(block)) {
            Perm::Branch => Grow::BtoT,
            _ => Grow::NtoT,
        };
        let reply = self.request(&acquisition(OpA::AcquirePerm, grow, block), message);
        if let Reply::Started(_) = reply {
            self.table.set_waiting(u32::from(block), Some(*bytes));
        }
        reply
    }

    /// Hands out a Release of a block, if a source is free.
    fn release(&mut self, block: u16, prune: Prune, message: &mut Message<W>) -> Reply
        requires inside { block < self.old.blocks }
        ensures does { Does self.old self.new (Op.Release block prune) (replied result message.new) }
        ensures left { handed result message.new ≡ None → message.new ≡ message.old }
    {
        let Some(source) = self.releases.least_free(self.config.sources) else {
            return Reply::Busy(Busy::B1);
        };
        let released = release(prune, source, block, self.bytes(u32::from(block)));
        self.releases.open(source, Release::of(&released));
        self.table.lower(u32::from(block), prune.right());
        *message = Message::C(released);
        Reply::Started(source)
    }

    /// Starts an operation for which no reason but B1 can apply.
    pub(super) fn begin(&mut self, operation: &Op<W>, message: &mut Message<W>) -> Reply
        requires { busy_by self.old operation.now ≡ None }
        ensures does { Does self.old self.new operation.now (replied result message.new) }
        ensures left { handed result message.new ≡ None → message.new ≡ message.old }
    {
        match operation {
            Op::Load { address, size } => self.load(*address, *size),
            Op::Store {
                address,
                size,
                value,
            } => self.store(*address, *size, *value),
            Op::Acquire { block, grow } => {
                self.request(&acquisition(OpA::AcquireBlock, *grow, *block), message)
            }
            Op::AcquireWhole { block, bytes } => self.acquire_whole(*block, bytes, message),
            Op::Release { block, prune } => self.release(*block, *prune, message),
            Op::Access(Message::A(access)) => self.request(access, message),
            Op::Access(_) => Reply::Busy(Busy::B4),
        }
    }
}
