//! Plays the lines of a schedule after its header.

ghost use Rattle.std.specs.Prelude.{◌≡◌, ◌++◌, ◌∷◌, [], IfOk, OnOk, None};
ghost use Rattle.tl_beat.specs.statement.Width.{IsWidth};
ghost use Rattle.tl_params.specs.statement.Config.{config_fault};
ghost use Rattle.tl_client.specs.declared.operation.Op.TheVariants.{Load, Store};
ghost use Rattle.tl_coherence.specs.declared.event.Event.TheVariants.{Ask, Deliver};
ghost use Rattle.tl_coherence.specs.statement.Log.{Log};
ghost use Rattle.tl_command.specs.declared.command.RunForm.{RunForm};
ghost use Rattle.tl_schedule.specs.code.Storing.{Remembers};
ghost use Rattle.tl_schedule.specs.statement.Commits.{HasPiece, asked_commit, at_most_one, commits_text};
ghost use Rattle.tl_schedule.specs.statement.CommonLine.{common_event};
ghost use Rattle.tl_schedule.specs.statement.OutcomeLine.{HasLine, link_of};
ghost use Rattle.tl_world.specs.statement.Answered.{answered};
ghost use Rattle.tl_engine.specs.statement.Played.{number_text};
ghost use Rattle.tl_engine.specs.code.Playing.{Drains, Happens, HasPlayed, PlaysLine, PlaysOn, Writes};

use crate::trace_header::world_of;
use std::alloc::{AllocError, Global};
use tl_beat::beat::Link;
use tl_beat::channel::Channel;
use tl_client::any::AnyClient;
use tl_client::operation::Op;
use tl_client::reply::Reply;
use tl_coherence::event::{Event, Outcome};
use tl_command::command::RunForm;
use tl_lines::fault::Fault;
use tl_manager::bits::BitDirectory;
use tl_rules::config::Config;
use tl_schedule::commit::{append_asked_commit, append_commits};
use tl_schedule::common::{Common, read_common};
use tl_schedule::line::{Line, read_event};
use tl_schedule::outcome::{append_answer, append_drained, append_outcome, append_trace};
use tl_schedule::whole::WholeStores;
use tl_world::world::World;

/// A world that is played, and the stores of whole blocks that its clients have asked for. These are kept only for a
/// trace with commits.
#[derive(Drop)]
pub struct Player<const W: usize> {
    world: World<W, AnyClient<W>, BitDirectory>,
    stores: WholeStores,
}

/// A player of a new world of the clients of a configuration, with no events yet.
pub fn player_of<const W: usize>(alloc: Global, config: Config) -> Result<Player<W>, AllocError>
    requires width { IsWidth W }
    requires fits { config_fault config ≡ None }
    ensures { IfOk result (λ player. (form : RunForm) → HasPlayed form config player []) }
{
    let world = world_of(alloc, config)?;
    let stores = WholeStores::new(alloc);
    Ok(Player { world, stores })
}

/// Appends the beat that moved in an event and the lines of its commits, and notes the event.
#[inline(never)]
fn append_with_commits<const W: usize>(
    stores: &mut WholeStores,
    event: &Event<W>,
    outcome: &Outcome<W>,
    out: &mut Vec<u8>,
) -> Result<(), AllocError>
    requires width { IsWidth W }
    requires writable { HasLine outcome.now }
    requires piece { HasPiece event.now outcome.now }
    ensures { OnOk result (Writes RunForm.TraceWithCommits stores.old stores.new event.now outcome.now out.old.items
        out.new.items) }
{
    append_trace(event, outcome, out)?;
    let granted = stores.granted(event, outcome);
    append_commits(event, outcome, granted, out)?;
    stores.note(event, outcome)
}

/// Appends the line of an event's outcome, or its part of the trace.
fn append_event<const W: usize>(
    form: RunForm,
    stores: &mut WholeStores,
    event: &Event<W>,
    outcome: &Outcome<W>,
    out: &mut Vec<u8>,
) -> Result<(), AllocError>
    requires width { IsWidth W }
    requires writable { HasLine outcome.now }
    requires piece { HasPiece event.now outcome.now }
    ensures { OnOk result (Writes form stores.old stores.new event.now outcome.now out.old.items out.new.items) }
{
    match form {
        RunForm::Outcomes => append_outcome(event, outcome, out),
        RunForm::Trace => append_trace(event, outcome, out),
        RunForm::TraceWithCommits => append_with_commits(stores, event, outcome, out),
    }
}

/// Plays an event, and appends its outcome.
fn play_event<const W: usize>(
    form: RunForm,
    player: &mut Player<W>,
    event: Event<W>,
    out: &mut Vec<u8>,
) -> Result<(), AllocError>
    requires width { IsWidth W }
    ensures { OnOk result (Happens form player.old player.new event.entry out.old.items out.new.items) }
{
    let outcome = player.world.step(event);
    append_event(form, &mut player.stores, &event, &outcome, out)
}

/// Plays a delivery, and appends its outcome.
fn play_delivery<const W: usize>(
    form: RunForm,
    player: &mut Player<W>,
    link: Link,
    channel: Channel,
    outcome: &mut Outcome<W>,
    out: &mut Vec<u8>,
) -> Result<(), AllocError>
    requires width { IsWidth W }
    ensures { OnOk result (Happens form player.old player.new (Deliver link channel) out.old.items out.new.items) }
{
    player.world.deliver(link, channel, outcome);
    let event = Event::Deliver { link, channel };
    append_event(form, &mut player.stores, &event, outcome, out)
}

/// Plays the next delivery until there is none, and appends the outcome of each. Returns the number of deliveries.
fn deliver_all<const W: usize>(
    form: RunForm,
    player: &mut Player<W>,
    out: &mut Vec<u8>,
) -> Result<u64, AllocError>
    requires width { IsWidth W }
    ensures { IfOk result (Drains form player.old player.new out.old.items out.new.items) }
{
    let load = player.world.load();
    let mut outcome = Outcome::Empty;
    for count in 0..load {
        match player.world.next_delivery() {
            None => return Ok(count),
            Some((link, channel)) => {
                play_delivery(form, player, link, channel, &mut outcome, out)?;
            }
        }
    }
    Ok(load)
}

/// Appends the number of deliveries of a `drain`, which a trace doesn't have.
fn append_number(form: RunForm, count: u64, out: &mut Vec<u8>) -> Result<(), AllocError>
    ensures { OnOk result (out.new.items ≡ out.old.items ++ number_text form count) }
{
    match form {
        RunForm::Outcomes => append_drained(count, out),
        RunForm::Trace | RunForm::TraceWithCommits => Ok(()),
    }
}

/// Plays the event or the `drain` of a line.
fn play_said<const W: usize>(
    form: RunForm,
    player: &mut Player<W>,
    said: Line<W>,
    out: &mut Vec<u8>,
) -> Result<(), AllocError>
    requires width { IsWidth W }
    ensures { OnOk result (PlaysOn form player.old player.new said.entry out.old.items out.new.items) }
{
    match said {
        Line::Event(event) => play_event(form, player, event, out),
        Line::Drain => {
            let count = deliver_all(form, player, out)?;
            append_number(form, count, out)
        }
    }
}

/// Plays a line of any form, read from left to right, or returns its fault.
fn play_any<const W: usize>(
    form: RunForm,
    player: &mut Player<W>,
    line: &[u8],
    out: &mut Vec<u8>,
) -> Result<Option<Fault>, AllocError>
    requires width { IsWidth W }
    ensures { IfOk result (PlaysLine form player.old player.new line.now out.old.items out.new.items) }
{
    match read_event(line) {
        Ok(said) => {
            play_said(form, player, said, out)?;
            Ok(None)
        }
        Err(fault) => Ok(Some(Fault::Event(fault))),
    }
}

/// Appends the line of a Load or a Store, if it was done.
#[inline(never)]
fn append_stored<const W: usize>(
    client: u8,
    operation: &Op<W>,
    answer: Option<Reply>,
    out: &mut Vec<u8>,
) -> Result<(), AllocError>
    requires width { IsWidth W }
    requires piece { HasPiece (Ask client operation.now) (answered answer) }
    ensures { OnOk result (out.new.items ≡ out.old.items ++ commits_text (link_of (Ask client operation.now))
        (at_most_one (asked_commit (Ask client operation.now) (answered answer)))) }
{
    match answer {
        None => Ok(()),
        Some(reply) => {
            let event = Event::Ask {
                client,
                operation: *operation,
            };
            append_asked_commit(&event, &Outcome::Replied { reply }, out)
        }
    }
}

/// Plays a Load, and appends its outcome.
#[inline(always)]
fn play_load<const W: usize>(
    form: RunForm,
    player: &mut Player<W>,
    client: u8,
    address: u32,
    size: u8,
    out: &mut Vec<u8>,
) -> Result<(), AllocError>
    requires width { IsWidth W }
    ensures { OnOk result (Happens form player.old player.new (Ask client (Load address size)) out.old.items
        out.new.items) }
{
    let answer = player.world.ask_load(client, address, size);
    match form {
        RunForm::Outcomes => append_answer(size, answer, out),
        RunForm::Trace => Ok(()),
        RunForm::TraceWithCommits => {
            append_stored(client, &Op::<W>::Load { address, size }, answer, out)
        }
    }
}

/// Plays a Store, and appends its outcome.
#[inline(always)]
fn play_store<const W: usize>(
    form: RunForm,
    player: &mut Player<W>,
    client: u8,
    address: u32,
    size: u8,
    value: u64,
    out: &mut Vec<u8>,
) -> Result<(), AllocError>
    requires width { IsWidth W }
    ensures { OnOk result (Happens form player.old player.new (Ask client (Store address size value)) out.old.items
        out.new.items) }
{
    let answer = player.world.ask_store(client, address, size, value);
    match form {
        RunForm::Outcomes => append_answer(0, answer, out),
        RunForm::Trace => Ok(()),
        RunForm::TraceWithCommits => {
            let operation = Op::<W>::Store {
                address,
                size,
                value,
            };
            append_stored(client, &operation, answer, out)
        }
    }
}

/// Plays a common line.
#[inline(always)]
fn play_common<const W: usize>(
    form: RunForm,
    player: &mut Player<W>,
    common: Common,
    out: &mut Vec<u8>,
) -> Result<(), AllocError>
    requires width { IsWidth W }
    ensures { OnOk result (Happens form player.old player.new (common_event common) out.old.items out.new.items) }
{
    match common {
        Common::Load {
            client,
            address,
            size,
        } => play_load(form, player, client, address, size, out),
        Common::Store {
            client,
            address,
            size,
            value,
        } => play_store(form, player, client, address, size, value, out),
        Common::Deliver { link, channel } => {
            play_delivery(form, player, link, channel, &mut Outcome::Empty, out)
        }
    }
}

/// Plays a line after the header, with its LF, or returns its fault.
pub fn play<const W: usize>(
    form: RunForm,
    player: &mut Player<W>,
    line: &[u8],
    out: &mut Vec<u8>,
) -> Result<Option<Fault>, AllocError>
    requires width { IsWidth W }
    ensures { IfOk result (PlaysLine form player.old player.new line.now out.old.items out.new.items) }
{
    match read_common(line) {
        Some(common) => {
            play_common(form, player, common, out)?;
            Ok(None)
        }
        None => play_any(form, player, line, out),
    }
}
