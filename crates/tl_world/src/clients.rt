//! Calls on one of several clients.

ghost use Rattle.std.specs.Prelude.{◌≡◌, ◌<◌, ◌≤◌, length, slice_index_or, true, None, Ok};
ghost use Rattle.std.specs.Bool.{OnTrue, OnFalse};
ghost use Rattle.tl_client.specs.declared.verdict.Verdict.TheVariants.{Taken};
ghost use Rattle.tl_client.specs.declared.operation.Op.TheVariants.{Load, Store};
ghost use Rattle.tl_client.specs.statement.Answer.{replied, told_by};
ghost use Rattle.tl_client.specs.statement.Endpoint;
ghost use Rattle.tl_client.specs.statement.Endpoint.{Endpoint};
ghost use Rattle.tl_client.specs.statement.Offer;
ghost use Rattle.tl_params.specs.declared.perm.Perm.TheVariants as perm;
ghost use Rattle.tl_world.specs.code.Called.{IsAsked, IsOffered};

use tl_beat::beat::Beat;
use tl_beat::channel::Channel;
use tl_burst::message::Message;
use tl_client::agent::Agent;
use tl_client::answer::Answer;
use tl_client::operation::Op;
use tl_client::reply::Reply;
use tl_rules::perm::Perm;
use tl_rules::rule::Rule;

/// Asks one client for an operation, and leaves the others. The client writes its message into `message`.
pub fn ask_at<const W: usize, A: Agent<W>>(
    clients: &mut Vec<A>,
    i: usize,
    operation: &Op<W>,
    message: &mut Message<W>,
) -> Reply
    requires { i < length clients.old.items }
    ensures { IsAsked A.represents A.terms clients.old.items clients.new.items i operation.now
        (replied result message.new) }
{
    clients[i].ask_into(operation, message)
}

/// Asks one client for a Load, and leaves the others.
pub fn ask_load_at<const W: usize, A: Agent<W>>(
    clients: &mut Vec<A>,
    i: usize,
    address: u32,
    size: u8,
) -> Reply
    requires { i < length clients.old.items }
    ensures { IsAsked A.represents A.terms clients.old.items clients.new.items i (Load address size)
        (result, None) }
{
    clients[i].ask_load(address, size)
}

/// Asks one client for a Store, and leaves the others.
pub fn ask_store_at<const W: usize, A: Agent<W>>(
    clients: &mut Vec<A>,
    i: usize,
    address: u32,
    size: u8,
    value: u64,
) -> Reply
    requires { i < length clients.old.items }
    ensures { IsAsked A.represents A.terms clients.old.items clients.new.items i (Store address size value)
        (result, None) }
{
    clients[i].ask_store(address, size, value)
}

/// Offers a beat to one client, which gives a compact answer, and leaves the others.
pub fn offer_at<const W: usize, A: Agent<W>>(
    clients: &mut Vec<A>,
    i: usize,
    channel: Channel,
    beat: &Beat<W>,
    bytes: &mut [u8; 64],
) -> Result<Answer, Rule>
    requires { i < length clients.old.items }
    ensures { IsOffered A.represents A.terms clients.old.items clients.new.items i channel beat.now
        (told_by result bytes.new) }
{
    clients[i].offer_into(channel, beat, bytes)
}

/// Lets one client take a beat that continues a message, and leaves the others. Returns whether it took it.
pub fn goes_on_at<const W: usize, A: Agent<W>>(
    clients: &mut Vec<A>,
    i: usize,
    channel: Channel,
    beat: &Beat<W>,
) -> bool
    requires { i < length clients.old.items }
    ensures taken { OnTrue result (IsOffered A.represents A.terms clients.old.items clients.new.items i channel beat.now
        (Ok (Taken, None))) }
    ensures unchanged { OnFalse result (clients.new ≡ clients.old) }
{
    if !clients[i].goes_on(channel, beat) {
        return false;
    }
    true
}

/// The permission that one client holds of a block; None if there is no such client.
pub fn held_at<const W: usize, A: Agent<W>>(clients: &Vec<A>, i: usize, block: u16) -> Perm
    ensures there { (e : Endpoint W) (d : A) → i < length clients.now.items →
        A.represents (slice_index_or clients.now.items i d) e →
        result ≡ Endpoint.held_at e block }
    ensures nowhere { length clients.now.items ≤ i → result ≡ perm.None }
{
    match clients.get(i) {
        None => Perm::None,
        Some(client) => client.held(block),
    }
}

/// The bytes of one client's copy of a block; None if there is no such client.
pub fn copy_at<const W: usize, A: Agent<W>>(
    clients: &Vec<A>,
    i: usize,
    block: u16,
) -> Option<[u8; 64]>
    ensures there { (e : Endpoint W) (d : A) → i < length clients.now.items →
        A.represents (slice_index_or clients.now.items i d) e →
        result ≡ e.copies block }
    ensures nowhere { length clients.now.items ≤ i → result ≡ None }
{
    match clients.get(i) {
        None => None,
        Some(client) => client.copy(block),
    }
}

/// Whether one client stalls a beat; true if there is no such client.
pub fn stalls_at<const W: usize, A: Agent<W>>(
    clients: &Vec<A>,
    i: usize,
    channel: Channel,
    beat: &Beat<W>,
) -> bool
    ensures there { (e : Endpoint W) (d : A) → i < length clients.now.items →
        A.represents (slice_index_or clients.now.items i d) e →
        result ≡ Offer.stalls (A.terms (slice_index_or clients.now.items i d)) channel beat.now e }
    ensures nowhere { length clients.now.items ≤ i → result ≡ true }
{
    match clients.get(i) {
        None => true,
        Some(client) => client.stalls(channel, beat),
    }
}
