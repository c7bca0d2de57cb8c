//! Plays a trial on clients: operations, and beats that are offered.

ghost use Rattle.tl_beat.specs.statement.Width.{IsWidth};

use crate::counting::Counting;
use crate::line::{append_copy, append_perm, append_text, number};
use crate::made::Hires;
use crate::offered::{Offered, append_refused, offered_by};
use crate::sent::{append_message, append_told};
use crate::trial::{Trial, config_of};
use std::alloc::{AllocError, Global};
use std::str::Split;
use tl_beat::beat::{Beat, Link};
use tl_burst::message::Message;
use tl_client::agent::Agent;
use tl_client::any::AnyClient;
use tl_client::caching::Caching;
use tl_client::plain::Plain;
use tl_client::verdict::Verdict;
use tl_coherence::event::{Event, Outcome};
use tl_rules::config::{Config, NewFault};
use tl_rules::level::Level;
use tl_schedule::line::{Line, read_event};

fn append_sent<const W: usize>(
    message: Option<Message<W>>,
    out: &mut Vec<u8>,
) -> Result<(), AllocError>
    requires { IsWidth W }
{
    match message {
        None => Ok(()),
        Some(message) => append_message(Link(0), &message, out),
    }
}

fn ask<const W: usize, A: Agent<W>>(
    client: &mut A,
    event: Event<W>,
    out: &mut Vec<u8>,
) -> Result<(), AllocError>
    requires { IsWidth W }
{
    let Event::Ask { operation, .. } = event else {
        return append_text("no such line\n", out);
    };
    let (reply, message) = client.ask(operation);
    append_told(&event, &Outcome::Replied { reply }, out)?;
    append_sent(message, out)
}

/// The outcome of a beat, as a world has it.
fn outcome_of<const W: usize>(verdict: Verdict, beat: Beat<W>) -> Outcome<W> {
    match verdict {
        Verdict::Stalled => Outcome::Stalled,
        Verdict::Taken => Outcome::Moved { beat },
        Verdict::Done(source, finish) => Outcome::Done {
            beat,
            source,
            finish,
        },
    }
}

/// Offers a beat. `stalls` must say whether it is stalled, and a refusal must close the link.
fn offer<const W: usize, A: Agent<W>>(
    client: &mut A,
    offered: Offered<W>,
    out: &mut Vec<u8>,
) -> Result<(), AllocError>
    requires { IsWidth W }
{
    let Offered {
        link,
        channel,
        beat,
    } = offered;
    let waits = client.stalls(channel, &beat);
    let as_said = match client.offer(channel, &beat) {
        Err(rule) => {
            append_refused(rule, out)?;
            !waits && client.closed() && !client.stalls(channel, &beat)
        }
        Ok((verdict, message)) => {
            let event = Event::Deliver { link, channel };
            append_told(&event, &outcome_of(verdict, beat), out)?;
            append_sent(message, out)?;
            waits == matches!(verdict, Verdict::Stalled)
        }
    };
    append_text(if as_said { "" } else { "not as it said\n" }, out)
}

/// Answers a question: the permission held of a block, its copy, or whether the link is closed.
fn answer<const W: usize, A: Agent<W>>(
    client: &A,
    mut words: Split<'_, char>,
    out: &mut Vec<u8>,
) -> Result<(), AllocError> {
    match words.next() {
        Some("held") => append_perm(client.held(number(&mut words)), out),
        Some("copy") => append_copy(client.copy(number(&mut words)), out),
        Some("closed") => append_text(
            if client.closed() {
                "closed\n"
            } else {
                "open\n"
            },
            out,
        ),
        _ => append_text("no such line\n", out),
    }
}

fn play_line<const W: usize, A: Agent<W>>(
    client: &mut A,
    line: &str,
    out: &mut Vec<u8>,
) -> Result<(), AllocError>
    requires { IsWidth W }
{
    if let Ok(Line::Event(event)) = read_event(line.as_bytes()) {
        return ask(client, event, out);
    }
    match offered_by(line) {
        Some(offered) => offer(client, offered, out),
        None => answer(client, line.trim_end().split(' '), out),
    }
}

fn play_lines<const W: usize, A: Agent<W>>(
    client: &mut A,
    trial: Trial,
    out: &mut Vec<u8>,
) -> Result<(), AllocError>
    requires { IsWidth W }
{
    for line in trial.text.split_inclusive('\n').skip(1) {
        play_line(client, line, out)?;
    }
    Ok(())
}

/// A client of one kind: the first of a configuration.
fn make_client<const W: usize, A: Hires<W>>(alloc: Global, config: &Config) -> Result<A, NewFault>
    requires { IsWidth W }
{
    match config.clients.as_slice().first() {
        None => Err(NewFault::N1),
        Some(first) => A::hire(alloc, *first, config.blocks, config.profile),
    }
}

/// The results of a trial on a client of one kind.
fn played<const W: usize, A: Hires<W>>(alloc: Global, trial: Trial) -> Result<Vec<u8>, NewFault>
    requires { IsWidth W }
{
    let config = config_of(trial)?;
    let mut text = Vec::new(alloc);
    let mut client = make_client::<W, A>(alloc, &config)?;
    play_lines(&mut client, trial, &mut text)?;
    Ok(text)
}

/// Plays a trial on a client of its level, on the same within `AnyClient`, and on one that counts. Appends the results,
/// which must agree.
pub fn play_clients<const W: usize>(
    alloc: Global,
    trial: Trial,
    out: &mut Vec<u8>,
) -> Result<(), NewFault>
    requires { IsWidth W }
{
    let config = config_of(trial)?;
    let told = played::<W, AnyClient<W>>(alloc, trial)?;
    let again = match config.clients.as_slice().first() {
        Some(client) if matches!(client.level, Level::C) => {
            played::<W, Caching<W>>(alloc, trial)?
        }
        _ => played::<W, Plain<W>>(alloc, trial)?,
    };
    let counted = played::<W, Counting<W>>(alloc, trial)?;
    out.extend_from_slice(told.as_slice())?;
    if told.as_slice() != again.as_slice() || told.as_slice() != counted.as_slice() {
        append_text("told in two ways\n", out)?;
    }
    Ok(())
}
