//! Operations that no line of a schedule spells: messages that no beat carries, or that no client sends.

ghost use Rattle.std.specs.Prelude.{◌≤◌};
ghost use Rattle.tl_beat.specs.statement.Width.{IsWidth};

use crate::agents::worlds::config_of;
use crate::expect::same;
use std::alloc::Global;
use std::process::Abort;
use tl_beat::beat::Link;
use tl_beat::channel::Channel;
use tl_beat::opcode::OpA;
use tl_burst::message::{Message, MessageA, MessageE};
use tl_client::agent::Agent;
use tl_client::any::AnyClient;
use tl_client::busy::Busy;
use tl_client::caching::Caching;
use tl_client::operation::Op;
use tl_client::plain::Plain;
use tl_client::reply::Reply;
use tl_coherence::event::{Event, Outcome};
use tl_manager::bits::BitDirectory;
use tl_manager::table::TableDirectory;
use tl_play::made::Hires;
use tl_play::replay::ran;
use tl_rules::config::ClientConfig;
use tl_rules::level::Level;
use tl_rules::profile::Profile;

fn request<const W: usize>(opcode: OpA, size: u8, mask: u64) -> MessageA<W>
    requires { size ≤ 6 }
{
    MessageA {
        opcode,
        param: 0,
        size,
        source: 0,
        address: 0,
        payload: [0; 64],
        mask,
        corrupt: 0,
    }
}

fn access<const W: usize>(request: MessageA<W>) -> Op<W> {
    Op::Access(Message::A(request))
}

/// A GrantAck, which isn't an access.
fn grant_ack<const W: usize>() -> Op<W> {
    Op::Access(Message::E(MessageE { sink: 0 }))
}

fn client_of<A: Hires<8>>(rt: &impl Abort, alloc: Global, level: Level) -> A {
    let config = ClientConfig { level, sources: 1 };
    match A::hire(alloc, config, 4, Profile::One) {
        Ok(client) => client,
        Err(_) => panic!(rt; "no client"),
    }
}

fn is_busy<A: Agent<8>>(rt: &impl Abort, client: &mut A, operation: Op<8>, busy: Busy) {
    same(rt, &client.ask(operation), &(Reply::Busy(busy), None));
}

/// Operations that a client of any level refuses. The source of an access is replaced.
fn asked_of<A: Hires<8>>(rt: &impl Abort, alloc: Global, level: Level, load: Busy) {
    let mut client = client_of::<A>(rt, alloc, level);
    is_busy(rt, &mut client, grant_ack(), Busy::B4);
    let acquire = request(OpA::AcquireBlock, 6, 0xff);
    is_busy(rt, &mut client, access(acquire), Busy::B4);
    for address in [0, 24] {
        is_busy(rt, &mut client, Op::Load { address, size: 4 }, load);
    }
    let mut corrupt = request(OpA::PutFullData, 3, 0xff);
    corrupt.corrupt = 1;
    is_busy(rt, &mut client, access(corrupt), Busy::B5);
    let mut long = request(OpA::Get, 3, 0xff);
    long.payload[63] = 1;
    is_busy(rt, &mut client, access(long), Busy::B5);
    is_busy(
        rt,
        &mut client,
        access(request(OpA::Get, 3, 0x1ff)),
        Busy::B5,
    );
    let get = request(OpA::Get, 3, 0xff);
    let mut another = get;
    another.source = 5;
    let started = (Reply::Started(0), Some(Message::A(get)));
    same(rt, &client.ask(access(another)), &started);
    is_busy(rt, &mut client, access(acquire), Busy::B4);
}

#[test]
fn what_a_client_is_not_asked(rt: HostRuntime) {
    let alloc = rt.alloc();
    asked_of::<Plain<8>>(&rt, alloc, Level::UH, Busy::B4);
    asked_of::<Plain<8>>(&rt, alloc, Level::UL, Busy::B4);
    asked_of::<Caching<8>>(&rt, alloc, Level::C, Busy::B5);
    asked_of::<AnyClient<8>>(&rt, alloc, Level::C, Busy::B5);
    asked_of::<AnyClient<8>>(&rt, alloc, Level::UH, Busy::B4);
}

fn corrupt_put<const W: usize>() -> Op<W> {
    let mut put = request(OpA::PutFullData, 3, 0xff);
    put.payload[..8].copy_from_slice(&[0xff; 8]);
    put.corrupt = 1;
    access(put)
}

/// Operations, each followed by a delivery on channel A.
fn asked_for<const W: usize>() -> [Event<W>; 4]
    requires { IsWidth W }
{
    let client = 0;
    let link = Link(0);
    let channel = Channel::A;
    let operation = corrupt_put();
    let first = Event::Ask { client, operation };
    let operation = grant_ack();
    let second = Event::Ask { client, operation };
    let delivery = Event::Deliver { link, channel };
    [first, delivery, second, delivery]
}

/// A message with a corrupt bit, or that is no access, isn't sent.
fn is_not_sent<const W: usize>(rt: &impl Abort, outcomes: [Outcome<W>; 4])
    requires { IsWidth W }
{
    let put = Outcome::Replied {
        reply: Reply::Busy(Busy::B5),
    };
    let ack = Outcome::Replied {
        reply: Reply::Busy(Busy::B4),
    };
    same(rt, &outcomes, &[put, Outcome::Empty, ack, Outcome::Empty]);
}

fn not_sent_by<const W: usize>(rt: &impl Abort, alloc: Global)
    requires { IsWidth W }
{
    let events = asked_for::<W>();
    let config = |level| config_of(1, 1, level, &[1]);
    let mut outcomes = [Outcome::Stalled; 4];
    let _ = ran::<W, AnyClient<W>, BitDirectory>(alloc, config(Level::UH), &events, &mut outcomes);
    is_not_sent(rt, outcomes);
    let mut outcomes = [Outcome::Stalled; 4];
    let _ = ran::<W, AnyClient<W>, TableDirectory>(alloc, config(Level::C), &events, &mut outcomes);
    is_not_sent(rt, outcomes);
    let mut outcomes = [Outcome::Stalled; 4];
    let _ = ran::<W, Plain<W>, BitDirectory>(alloc, config(Level::UH), &events, &mut outcomes);
    is_not_sent(rt, outcomes);
    let mut outcomes = [Outcome::Stalled; 4];
    let _ = ran::<W, Plain<W>, TableDirectory>(alloc, config(Level::UL), &events, &mut outcomes);
    is_not_sent(rt, outcomes);
}

#[test]
fn what_a_world_does_not_send(rt: HostRuntime) {
    not_sent_by::<4>(&rt, rt.alloc());
    not_sent_by::<8>(&rt, rt.alloc());
    not_sent_by::<16>(&rt, rt.alloc());
}
