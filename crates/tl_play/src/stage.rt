//! Plays a trial with beats of the width that its header names.

ghost use Rattle.tl_beat.specs.statement.Width.{IsWidth};

use crate::client::play_clients;
use crate::line::append_text;
use crate::manager::play_managers;
use crate::replay::{Depth, play_worlds};
use crate::trial::{Trial, schedule_of};
use std::alloc::Global;
use tl_params::width::Width;
use tl_rules::config::NewFault;

/// The player of a trial.
#[derive(Clone, Copy)]
pub enum Stage {
    Clients,
    Managers,
    Worlds,
    /// Worlds that begin each trial again after each of its events.
    Beginnings,
}

fn play_at<const W: usize>(
    alloc: Global,
    stage: Stage,
    trial: Trial,
    out: &mut Vec<u8>,
) -> Result<(), NewFault>
    requires { IsWidth W }
{
    match stage {
        Stage::Clients => play_clients::<W>(alloc, trial, out),
        Stage::Managers => play_managers::<W>(alloc, trial, out),
        Stage::Worlds => play_worlds::<W>(alloc, trial, Depth::EachWay, out),
        Stage::Beginnings => play_worlds::<W>(alloc, trial, Depth::EachBeginning, out),
    }
}

/// Appends the name of a trial, and its results.
fn play_trial(
    alloc: Global,
    stage: Stage,
    name: &str,
    trial: Trial,
    out: &mut Vec<u8>,
) -> Result<(), NewFault> {
    append_text("# ", out)?;
    append_text(name, out)?;
    append_text("\n", out)?;
    let Some(schedule) = schedule_of(trial) else {
        append_text("no header\n", out)?;
        return Ok(());
    };
    match schedule.version.width() {
        Width::Four => play_at::<4>(alloc, stage, trial, out),
        Width::Eight => play_at::<8>(alloc, stage, trial, out),
        Width::Sixteen => play_at::<16>(alloc, stage, trial, out),
    }
}

/// Plays the trials of a text, each of which begins with `# ` and its name.
pub fn play_text(
    alloc: Global,
    stage: Stage,
    text: &str,
    out: &mut Vec<u8>,
) -> Result<(), NewFault> {
    for part in text.split("# ") {
        if let Some((name, rest)) = part.split_once('\n') {
            play_trial(alloc, stage, name, Trial { text: rest }, out)?;
        }
    }
    Ok(())
}
