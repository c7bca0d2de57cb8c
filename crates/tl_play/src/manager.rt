//! Plays a trial on managers: beats that are offered.

ghost use Rattle.tl_beat.specs.statement.Width.{IsWidth};

use crate::line::{append_text, small_number};
use crate::made::{Covers, make_manager};
use crate::offered::{Offered, append_refused, offered_by};
use crate::sent::append_message;
use crate::trial::{Trial, config_of};
use std::alloc::{AllocError, Global};
use tl_beat::beat::Link;
use tl_manager::bits::BitDirectory;
use tl_manager::directory::Directory;
use tl_manager::manager::reply::Handed;
use tl_manager::manager::{Manager, Taken};
use tl_manager::table::TableDirectory;
use tl_rules::config::NewFault;

fn append_handed<const W: usize>(handed: &Handed<W>, out: &mut Vec<u8>) -> Result<(), AllocError>
    requires { IsWidth W }
{
    if handed.is_empty() {
        return append_text("taken\n", out);
    }
    for (link, message) in handed.as_slice() {
        append_message(*link, message, out)?;
    }
    Ok(())
}

/// Offers a beat. `stalls` must say whether it is stalled, and a refusal must close the link.
fn offer<const W: usize, D: Directory>(
    manager: &mut Manager<W, D>,
    offered: Offered<W>,
    out: &mut Vec<u8>,
) -> Result<(), AllocError>
    requires { IsWidth W }
{
    let Offered {
        link,
        channel,
        beat,
    } = offered;
    let waits = manager.stalls(link, channel, &beat);
    let as_said = match manager.offer(link, channel, &beat) {
        Err(rule) => {
            append_refused(rule, out)?;
            !waits && manager.closed(link) && !manager.stalls(link, channel, &beat)
        }
        Ok(Taken::Stalled) => {
            append_text("stalled\n", out)?;
            waits
        }
        Ok(Taken::Sent(handed)) => {
            append_handed(&handed, out)?;
            !waits
        }
    };
    append_text(if as_said { "" } else { "not as it said\n" }, out)
}

/// Plays a line: a beat that is offered, or the question whether a link is closed.
fn play_line<const W: usize, D: Directory>(
    manager: &mut Manager<W, D>,
    line: &str,
    out: &mut Vec<u8>,
) -> Result<(), AllocError>
    requires { IsWidth W }
{
    if let Some(rest) = line.strip_prefix("closed ") {
        let link = Link(small_number(&mut rest.trim_end().split(' ')));
        return append_text(
            if manager.closed(link) {
                "closed\n"
            } else {
                "open\n"
            },
            out,
        );
    }
    match offered_by(line) {
        None => append_text("no such line\n", out),
        Some(offered) => offer(manager, offered, out),
    }
}

fn play_lines<const W: usize, D: Directory>(
    manager: &mut Manager<W, D>,
    trial: Trial,
    out: &mut Vec<u8>,
) -> Result<(), NewFault>
    requires { IsWidth W }
{
    for line in trial.text.split_inclusive('\n').skip(1) {
        play_line(manager, line, out)?;
    }
    Ok(())
}

/// Plays a trial on a new manager with one kind of directory.
fn play_anew<const W: usize, D: Covers>(
    alloc: Global,
    trial: Trial,
    out: &mut Vec<u8>,
) -> Result<Manager<W, D>, NewFault>
    requires { IsWidth W }
{
    let config = config_of(trial)?;
    let mut manager = make_manager::<W, D>(alloc, &config)?;
    play_lines(&mut manager, trial, out)?;
    Ok(manager)
}

/// Plays a trial on a manager with each kind of directory. Appends the results, which must agree.
pub fn play_managers<const W: usize>(
    alloc: Global,
    trial: Trial,
    out: &mut Vec<u8>,
) -> Result<(), NewFault>
    requires { IsWidth W }
{
    let mut told = Vec::new(alloc);
    let _ = play_anew::<W, BitDirectory>(alloc, trial, &mut told)?;
    let mut again = Vec::new(alloc);
    let _ = play_anew::<W, TableDirectory>(alloc, trial, &mut again)?;
    out.extend_from_slice(told.as_slice())?;
    if told.as_slice() != again.as_slice() {
        append_text("told in two ways\n", out)?;
    }
    Ok(())
}
