//! Plays the trials of data/ and writes their results, which are compared with the expected ones.
#![tactic(auto)]

mod text;

use std::io::Write;
use std::process::ExitCode;
use std::{fs, io};
use tl_play::stage::{Stage, play_text};

/// The files of trials, by their names in data/.
const TRIALS: [(Stage, &str); 18] = [
    (Stage::Clients, "client/plain.trials"),
    (Stage::Clients, "client/transfers.trials"),
    (Stage::Clients, "client/refusals.trials"),
    (Stage::Clients, "client/order.trials"),
    (Stage::Clients, "client/run.trials"),
    (Stage::Managers, "manager/accesses.trials"),
    (Stage::Managers, "manager/transfers.trials"),
    (Stage::Managers, "manager/refusals.trials"),
    (Stage::Managers, "manager/history.trials"),
    (Stage::Managers, "manager/order.trials"),
    (Stage::Managers, "manager/limits.trials"),
    (Stage::Managers, "manager/runs.trials"),
    (Stage::Worlds, "world/accesses.trials"),
    (Stage::Worlds, "world/copies.trials"),
    (Stage::Worlds, "world/mixed.trials"),
    (Stage::Worlds, "world/sixteen.trials"),
    (Stage::Worlds, "world/depths.trials"),
    (Stage::Beginnings, "world/brim.trials"),
];

/// Plays the trials of a file. Returns whether the file could be read and the results written.
fn play_file(rt: &HostRuntime, stage: Stage, name: &str) -> bool {
    let Ok(text) = fs::read_to_string(rt, name) else {
        return false;
    };
    let mut out = Vec::new(rt.alloc());
    play_text(rt.alloc(), stage, text.as_str(), &mut out).is_ok()
        && io::writer(rt).write_all(out.as_slice()).is_ok()
}

fn main(rt: HostRuntime) -> ExitCode {
    for (stage, name) in TRIALS {
        if !play_file(&rt, stage, name) {
            return ExitCode::FAILURE;
        }
    }
    if text::play(&rt).is_ok() {
        ExitCode::SUCCESS
    } else {
        ExitCode::FAILURE
    }
}
