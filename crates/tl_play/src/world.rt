//! Plays the lines of a trial on a world: events, and questions.

ghost use Rattle.tl_beat.specs.statement.Width.{IsWidth};

use crate::line::{
    append_copy, append_number, append_perm, append_text, channel_named, number, small_number,
};
use crate::sent::append_told;
use std::alloc::{AllocError, Global};
use std::str::Split;
use tl_beat::beat::Link;
use tl_beat::channel::Channel;
use tl_client::agent::Agent;
use tl_coherence::event::{Event, Outcome};
use tl_manager::directory::Directory;
use tl_schedule::line::{Line, read_event};
use tl_schedule::outcome::append_drained;
use tl_world::world::World;

/// The ways to play a line `drain`.
#[derive(Clone, Copy, Debug, PartialEq, Eq)]
pub enum Way {
    /// Each delivery is an event, and its outcome is written.
    Told,
    /// Each delivery is an event, and only their number is written.
    Counted,
    /// In one call of `drain`.
    AtOnce,
}

/// The events that were played, their outcomes, and the text that was written.
#[derive(Drop)]
pub struct Record<const W: usize> {
    pub events: Vec<Event<W>>,
    pub outcomes: Vec<Outcome<W>>,
    pub text: Vec<u8>,
    /// The place in `text` of the answers after the last event.
    pub last: usize,
}

impl<const W: usize> Record<W> {
    /// A record without events.
    pub fn new(alloc: Global) -> Record<W> {
        Record {
            events: Vec::new(alloc),
            outcomes: Vec::new(alloc),
            text: Vec::new(alloc),
            last: 0,
        }
    }

    /// Whether these are the answers after the last event.
    pub fn ends_with(&self, answers: &[u8]) -> bool {
        Some(answers) == self.text.as_slice().get(self.last..)
    }

    /// The first events, this many of them, or all.
    pub fn first_events(&self, count: usize) -> &[Event<W>] {
        let events = self.events.as_slice();
        events.get(..count).unwrap_or(events)
    }

    /// Whether the record begins with these outcomes.
    pub fn begins_with(&self, outcomes: &[Outcome<W>]) -> bool {
        Some(outcomes) == self.outcomes.as_slice().get(..outcomes.len())
    }

    fn push(&mut self, event: Event<W>, outcome: Outcome<W>) -> Result<(), AllocError> {
        self.events.push(event)?;
        self.outcomes.push(outcome)?;
        Ok(())
    }

    fn tell(
        &mut self,
        is_told: bool,
        event: Event<W>,
        outcome: Outcome<W>,
    ) -> Result<(), AllocError>
        requires { IsWidth W }
    {
        if is_told {
            append_told(&event, &outcome, &mut self.text)?;
        }
        self.push(event, outcome)
    }
}

fn happen<const W: usize, A: Agent<W>, D: Directory>(
    world: &mut World<W, A, D>,
    event: Event<W>,
    is_told: bool,
    record: &mut Record<W>,
) -> Result<(), AllocError>
    requires { IsWidth W }
{
    let outcome = world.step(event);
    record.tell(is_told, event, outcome)
}

/// Makes the next delivery until there is none, and returns their number.
fn deliver_all<const W: usize, A: Agent<W>, D: Directory>(
    world: &mut World<W, A, D>,
    is_told: bool,
    record: &mut Record<W>,
) -> Result<u64, AllocError>
    requires { IsWidth W }
{
    let load = world.load();
    for count in 0..load {
        match world.next_delivery() {
            None => return Ok(count),
            Some((link, channel)) => {
                happen(world, Event::Deliver { link, channel }, is_told, record)?;
            }
        }
    }
    Ok(load)
}

/// Whether nothing is outstanding, and there is no next delivery.
pub fn is_idle<const W: usize, A: Agent<W>, D: Directory>(world: &World<W, A, D>) -> bool {
    world.next_delivery().is_none() && world.load() == 0
}

/// Drains the world. That must take at most as many deliveries as the load, and leave the world idle.
fn drain<const W: usize, A: Agent<W>, D: Directory>(
    world: &mut World<W, A, D>,
    way: Way,
    record: &mut Record<W>,
) -> Result<(), AllocError>
    requires { IsWidth W }
{
    let load = world.load();
    let count = match way {
        Way::Told => deliver_all(world, true, record)?,
        Way::Counted => deliver_all(world, false, record)?,
        Way::AtOnce => world.drain(),
    };
    append_drained(count, &mut record.text)?;
    if count > load || !is_idle(world) {
        append_text("not idle\n", &mut record.text)?;
    }
    Ok(())
}

fn append_depths<const W: usize, A: Agent<W>, D: Directory>(
    world: &World<W, A, D>,
    link: Link,
    out: &mut Vec<u8>,
) -> Result<(), AllocError> {
    append_text("deepest", out)?;
    for channel in [Channel::A, Channel::B, Channel::C, Channel::D, Channel::E] {
        append_text(" ", out)?;
        append_number(u64::from(world.deepest(link, channel)), out)?;
    }
    append_text("\n", out)
}

/// Answers a question: the permission that a client holds of a block, its copy, the greatest number of beats in each
/// channel of a link, or the load.
fn answer_words<const W: usize, A: Agent<W>, D: Directory>(
    world: &World<W, A, D>,
    mut words: Split<'_, char>,
    out: &mut Vec<u8>,
) -> Result<(), AllocError> {
    match words.next() {
        Some("held") => {
            let client = small_number(&mut words);
            append_perm(world.held(client, number(&mut words)), out)
        }
        Some("copy") => {
            let client = small_number(&mut words);
            append_copy(world.copy(client, number(&mut words)), out)
        }
        Some("deepest") => append_depths(world, Link(small_number(&mut words)), out),
        Some("load") => {
            append_text("load ", out)?;
            append_number(world.load(), out)?;
            append_text("\n", out)
        }
        _ => append_text("no such line\n", out),
    }
}

/// Appends the answer to the question in a line.
pub fn answer<const W: usize, A: Agent<W>, D: Directory>(
    world: &World<W, A, D>,
    line: &str,
    out: &mut Vec<u8>,
) -> Result<(), AllocError> {
    answer_words(world, line.trim_end().split(' '), out)
}

/// Plays a line after the header.
pub fn play_line<const W: usize, A: Agent<W>, D: Directory>(
    world: &mut World<W, A, D>,
    way: Way,
    line: &str,
    record: &mut Record<W>,
) -> Result<(), AllocError>
    requires { IsWidth W }
{
    match read_event(line.as_bytes()) {
        Err(_) => return answer(world, line, &mut record.text),
        Ok(Line::Event(event)) => happen(world, event, true, record)?,
        Ok(Line::Drain) => drain(world, way, record)?,
    }
    record.last = record.text.len();
    Ok(())
}
