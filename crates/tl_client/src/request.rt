//! Requests of channel A: their start, and the fields by which their responses are judged.

ghost use Rattle.std.specs.Prelude.{ℕ, ◌≡◌, ◌≤◌, ◌==◌, ◌&&◌, if◌then◌else◌, is_some, None};
ghost use Rattle.std.specs.List.{list_any};
ghost use Rattle.tl_client.specs.statement.Answer.{handed, replied};
ghost use Rattle.tl_client.specs.statement.Ask.{least_free};
ghost use Rattle.tl_client.specs.statement.Requests.{start_with, opened_by, acquires_block};
ghost use Rattle.tl_client.specs.code.Sources.{open_at};

use crate::busy::Busy;
use crate::reply::Reply;
use crate::sources::Sources;
use tl_beat::opcode::OpA;
use tl_burst::message::{Message, MessageA};
use tl_rules::key::block_at;
use tl_rules::kind::is_acquire;
use tl_rules::past;

/// The fields of a pending request of channel A.
#[derive(Clone, Copy, Debug, PartialEq, Eq)]
pub struct Request {
    pub opcode: OpA,
    pub param: u8,
    pub size: u8,
    pub address: u32,
}

impl Request {
    ghost use Rattle.tl_client.specs.statement.Requests.{fields_in, judged_in};

    /// The fields of this request.
    pub fn of<const W: usize>(request: &MessageA<W>) -> Self
        ensures { result ≡ fields_in request.now }
    {
        Request {
            opcode: request.opcode,
            param: request.param,
            size: request.size,
            address: request.address,
        }
    }

    /// The fields that the H rules need.
    pub fn judged(self) -> past::Request
        ensures { result ≡ judged_in self }
    {
        past::Request {
            opcode: self.opcode,
            param: self.param,
            size: self.size,
            block: block_at(self.address),
        }
    }
}

/// Whether there is a request, and it is an Acquire of the block.
pub fn is_acquire_of(request: Option<Request>, block: u32) -> bool
    ensures { result ≡ acquires_block block request }
{
    match request {
        None => false,
        Some(request) => is_acquire(request.opcode) && block_at(request.address) == block,
    }
}

/// Whether an Acquire of the block is pending.
pub fn is_acquiring(requests: &Sources<Request>, block: u32) -> bool
    ensures { result ≡ list_any (acquires_block block) requests.now.with_source }
{
    let all = requests.all();
    all.iter().any(|request| is_acquire_of(*request, block))
}

/// Hands out a request with the least free source, and writes it into `message`. The reply is B1 if no source is free.
pub fn start<const W: usize>(
    requests: &mut Sources<Request>,
    sources: u8,
    request: &MessageA<W>,
    message: &mut Message<W>,
) -> Reply
    requires { sources ≤ 8 }
    ensures answer { replied result message.new
        ≡ start_with (least_free (λ s. is_some (open_at requests.old s)) 0 sources) request.now }
    ensures opened { (s : ℕ) → open_at requests.new s
        ≡ opened_by s (handed result message.new) (open_at requests.old s) }
    ensures left { handed result message.new ≡ None → message.new ≡ message.old }
{
    let Some(source) = requests.least_free(sources) else {
        return Reply::Busy(Busy::B1);
    };
    requests.open(source, Request::of(request));
    let mut started = *request;
    started.source = source;
    *message = Message::A(started);
    Reply::Started(source)
}
