//! Plays a trial on worlds of each kind, in each way.

ghost use Rattle.tl_beat.specs.statement.Width.{IsWidth};

use crate::counting::Counting;
use crate::line::{append_number, append_text};
use crate::made::{Covers, Hires, hire_all, make_world};
use crate::trial::{Trial, config_of};
use crate::world::{Record, Way, answer, is_idle, play_line};
use std::alloc::{AllocError, Global};
use tl_client::agent::Agent;
use tl_client::any::AnyClient;
use tl_client::caching::Caching;
use tl_client::plain::Plain;
use tl_coherence::event::{Event, Outcome};
use tl_manager::bits::BitDirectory;
use tl_manager::directory::Directory;
use tl_manager::table::TableDirectory;
use tl_rules::config::{Config, NewFault};
use tl_rules::level::Level;
use tl_schedule::line::read_event;
use tl_world::world::World;

fn play_lines<const W: usize, A: Agent<W>, D: Directory>(
    world: &mut World<W, A, D>,
    trial: Trial,
    way: Way,
    record: &mut Record<W>,
) -> Result<(), NewFault>
    requires { IsWidth W }
{
    for line in trial.text.split_inclusive('\n').skip(1) {
        play_line(world, way, line, record)?;
    }
    Ok(())
}

/// Plays a trial on a new world of one kind.
fn play_anew<const W: usize, A: Hires<W>, D: Covers>(
    alloc: Global,
    trial: Trial,
    way: Way,
    record: &mut Record<W>,
) -> Result<World<W, A, D>, NewFault>
    requires { IsWidth W }
{
    let config = config_of(trial)?;
    let mut world = make_world::<W, A, D>(alloc, config)?;
    play_lines(&mut world, trial, way, record)?;
    Ok(world)
}

/// The answers of a world to the questions after the last event.
fn last_answers<const W: usize, A: Agent<W>, D: Directory>(
    alloc: Global,
    world: &World<W, A, D>,
    trial: Trial,
) -> Result<Vec<u8>, NewFault>
    requires { IsWidth W }
{
    let mut text = Vec::new(alloc);
    for line in trial.text.split_inclusive('\n').skip(1) {
        if read_event::<W>(line.as_bytes()).is_ok() {
            text.clear();
        } else {
            answer(world, line, &mut text)?;
        }
    }
    Ok(text)
}

/// Room for this many outcomes.
#[derive(Drop)]
struct Room<const W: usize> {
    outcomes: Vec<Outcome<W>>,
}

fn room_for<const W: usize>(alloc: Global, count: usize) -> Result<Room<W>, AllocError>
    requires { IsWidth W }
{
    let mut outcomes = Vec::new(alloc);
    outcomes.resize(count, Outcome::NoSuchClient)?;
    Ok(Room { outcomes })
}

fn clear<const W: usize>(outcomes: &mut [Outcome<W>])
    requires { IsWidth W }
{
    for outcome in outcomes.iter_mut() {
        *outcome = Outcome::NoSuchClient;
    }
}

/// A new world by a replay of events, of as many as there is room for outcomes.
pub fn replayed<const W: usize, A: Hires<W>, D: Covers>(
    alloc: Global,
    config: Config,
    events: &[Event<W>],
    outcomes: &mut [Outcome<W>],
) -> Result<World<W, A, D>, NewFault>
    requires { IsWidth W }
{
    if events.len() != outcomes.len() {
        return Err(NewFault::Memory);
    }
    let clients = hire_all::<W, A>(alloc, &config)?;
    let directory = D::cover(alloc, &config)?;
    World::replay(alloc, config, clients, directory, events, outcomes)
}

/// The answers of a world after the last event must be those in the record.
fn answer_again<const W: usize, A: Agent<W>, D: Directory>(
    alloc: Global,
    world: &World<W, A, D>,
    trial: Trial,
    told: &Record<W>,
    same: &mut bool,
) -> Result<(), NewFault>
    requires { IsWidth W }
{
    let answers = last_answers(alloc, world, trial)?;
    *same = *same && told.ends_with(answers.as_slice());
    Ok(())
}

/// A replay of the events in the record must have the same outcomes.
fn replay_again<const W: usize, A: Hires<W>, D: Covers>(
    alloc: Global,
    trial: Trial,
    told: &Record<W>,
    outcomes: &mut [Outcome<W>],
    same: &mut bool,
) -> Result<World<W, A, D>, NewFault>
    requires { IsWidth W }
{
    clear(outcomes);
    let config = config_of(trial)?;
    let events = told.events.as_slice();
    let world = replayed::<W, A, D>(alloc, config, events, outcomes)?;
    *same = *same && told.begins_with(outcomes);
    answer_again::<W, A, D>(alloc, &world, trial, told, same)?;
    Ok(world)
}

/// A new world in which events happen in one call, as many as there is room for outcomes.
pub fn ran<const W: usize, A: Hires<W>, D: Covers>(
    alloc: Global,
    config: Config,
    events: &[Event<W>],
    outcomes: &mut [Outcome<W>],
) -> Result<World<W, A, D>, NewFault>
    requires { IsWidth W }
{
    let mut world = make_world::<W, A, D>(alloc, config)?;
    if events.len() == outcomes.len() {
        world.run(events, outcomes);
    }
    Ok(world)
}

/// Whether a world drains within its load, and is then idle.
fn drains<const W: usize, A: Agent<W>, D: Directory>(world: &mut World<W, A, D>) -> bool
    requires { IsWidth W }
{
    let load = world.load();
    world.drain() <= load && is_idle(world)
}

/// As many events happen in a new world as there is room for, with the same outcomes. Then it drains.
fn drain_behind<const W: usize, A: Hires<W>, D: Covers>(
    alloc: Global,
    trial: Trial,
    told: &Record<W>,
    outcomes: &mut [Outcome<W>],
    same: &mut bool,
) -> Result<World<W, A, D>, NewFault>
    requires { IsWidth W }
{
    clear(outcomes);
    let config = config_of(trial)?;
    let events = told.first_events(outcomes.len());
    let mut world = ran::<W, A, D>(alloc, config, events, outcomes)?;
    *same = *same && told.begins_with(outcomes) && drains::<W, A, D>(&mut world);
    Ok(world)
}

/// The same after each first part of the record.
fn drain_behind_each<const W: usize, A: Hires<W>, D: Covers>(
    alloc: Global,
    trial: Trial,
    told: &Record<W>,
    outcomes: &mut [Outcome<W>],
    same: &mut bool,
) -> Result<World<W, A, D>, NewFault>
    requires { IsWidth W }
{
    for count in 0..outcomes.len() {
        let _ = drain_behind::<W, A, D>(alloc, trial, told, &mut outcomes[..count], same)?;
    }
    drain_behind(alloc, trial, told, outcomes, same)
}

/// The ways in which a trial is played again.
#[derive(Clone, Copy)]
pub enum Depth {
    /// In each way.
    EachWay,
    /// Also after each first part of the record.
    EachBeginning,
}

/// Plays worlds of one kind in each way.
fn tell_again<const W: usize, A: Hires<W>, D: Covers>(
    alloc: Global,
    trial: Trial,
    told: &Record<W>,
    outcomes: &mut [Outcome<W>],
    same: &mut bool,
) -> Result<World<W, A, D>, NewFault>
    requires { IsWidth W }
{
    let mut again = Record::new(alloc);
    let _ = play_anew::<W, A, D>(alloc, trial, Way::Told, &mut again)?;
    *same = *same && again.text.as_slice() == told.text.as_slice();
    let mut counted = Record::new(alloc);
    let _ = play_anew::<W, A, D>(alloc, trial, Way::Counted, &mut counted)?;
    let mut at_once = Record::new(alloc);
    let _ = play_anew::<W, A, D>(alloc, trial, Way::AtOnce, &mut at_once)?;
    *same = *same && counted.text.as_slice() == at_once.text.as_slice();
    replay_again(alloc, trial, told, outcomes, same)
}

/// Plays worlds of one kind to this depth.
fn tell_as_deep<const W: usize, A: Hires<W>, D: Covers>(
    alloc: Global,
    trial: Trial,
    depth: Depth,
    told: &Record<W>,
    outcomes: &mut [Outcome<W>],
    same: &mut bool,
) -> Result<World<W, A, D>, NewFault>
    requires { IsWidth W }
{
    match depth {
        Depth::EachWay => {}
        Depth::EachBeginning => {
            let _ = drain_behind_each::<W, A, D>(alloc, trial, told, outcomes, same)?;
        }
    }
    tell_again(alloc, trial, told, outcomes, same)
}

/// Whether each client keeps copies.
fn all_keep(config: &Config) -> bool {
    let clients = config.clients.as_slice();
    clients
        .iter()
        .all(|client| matches!(client.level, Level::C))
}

/// Whether no client keeps copies.
fn none_keeps(config: &Config) -> bool {
    let clients = config.clients.as_slice();
    clients
        .iter()
        .all(|client| !matches!(client.level, Level::C))
}

/// Plays a trial on worlds of each kind that its levels allow.
fn tell_all<const W: usize>(
    alloc: Global,
    trial: Trial,
    depth: Depth,
    told: &Record<W>,
    outcomes: &mut [Outcome<W>],
    same: &mut bool,
) -> Result<(), NewFault>
    requires { IsWidth W }
{
    let config = config_of(trial)?;
    let _ = tell_as_deep::<W, AnyClient<W>, BitDirectory>(
        alloc, trial, depth, told, outcomes, same,
    )?;
    let _ = tell_as_deep::<W, AnyClient<W>, TableDirectory>(
        alloc, trial, depth, told, outcomes, same,
    )?;
    let _ = tell_as_deep::<W, Counting<W>, BitDirectory>(
        alloc, trial, depth, told, outcomes, same,
    )?;
    if all_keep(&config) {
        let _ = tell_as_deep::<W, Caching<W>, BitDirectory>(
            alloc, trial, depth, told, outcomes, same,
        )?;
        let _ = tell_as_deep::<W, Caching<W>, TableDirectory>(
            alloc, trial, depth, told, outcomes, same,
        )?;
    }
    if none_keeps(&config) {
        let _ = tell_as_deep::<W, Plain<W>, BitDirectory>(
            alloc, trial, depth, told, outcomes, same,
        )?;
        let _ = tell_as_deep::<W, Plain<W>, TableDirectory>(
            alloc, trial, depth, told, outcomes, same,
        )?;
    }
    Ok(())
}

/// Plays a trial on worlds. Appends their results, which must agree, and the number of events.
pub fn play_worlds<const W: usize>(
    alloc: Global,
    trial: Trial,
    depth: Depth,
    out: &mut Vec<u8>,
) -> Result<(), NewFault>
    requires { IsWidth W }
{
    let mut told = Record::new(alloc);
    let _ = play_anew::<W, AnyClient<W>, BitDirectory>(alloc, trial, Way::Told, &mut told)?;
    let mut same = true;
    let mut room = room_for::<W>(alloc, told.events.len())?;
    let outcomes = room.outcomes.as_mut_slice();
    tell_all(alloc, trial, depth, &told, outcomes, &mut same)?;
    out.extend_from_slice(told.text.as_slice())?;
    append_number(told.events.len() as u64, out)?;
    append_text(
        if same {
            " events\n"
        } else {
            " events, told in two ways\n"
        },
        out,
    )?;
    Ok(())
}
