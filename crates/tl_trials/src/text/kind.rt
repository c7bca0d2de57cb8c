//! The kinds of sections, by the names in their first lines.

use tl_engine::command::{Command, RunForm};
use tl_params::level::Level;
use tl_params::width::Width;

/// The ways to read a single line.
#[derive(Clone, Copy)]
pub enum Reading {
    /// As a beat.
    Beat,
    /// As a beat of a link of this level.
    Level(Level),
    /// As an event of a world.
    Event,
    /// As the header of a schedule.
    Header,
}

/// The results that are written for a section.
#[derive(Clone, Copy)]
pub enum Kind {
    /// The text that a command writes for it.
    Command(Command),
    /// The fault of the section as a whole trace.
    Trace,
    /// The content of each of its lines, for beats of this width.
    Lines(Reading, Width),
}

fn width_of(name: &str) -> Option<Width> {
    match name {
        "4" => Some(Width::Four),
        "8" => Some(Width::Eight),
        "16" => Some(Width::Sixteen),
        _ => None,
    }
}

/// The way to read lines that has this name.
fn reading_of(name: &str) -> Option<Reading> {
    match name {
        "beats" => Some(Reading::Beat),
        "UL beats" => Some(Reading::Level(Level::UL)),
        "UH beats" => Some(Reading::Level(Level::UH)),
        "C beats" => Some(Reading::Level(Level::C)),
        "events" => Some(Reading::Event),
        "headers" => Some(Reading::Header),
        _ => None,
    }
}

/// The command of this name.
fn command_of(name: &str) -> Option<Command> {
    match name {
        "decode" => Some(Command::Decode {
            width: Width::Eight,
        }),
        "decode --width 4" => Some(Command::Decode { width: Width::Four }),
        "decode --width 16" => Some(Command::Decode {
            width: Width::Sixteen,
        }),
        "monitor" => Some(Command::Monitor),
        "coherent" => Some(Command::Coherent),
        "run" => Some(Command::Run {
            form: RunForm::Outcomes,
        }),
        "run --trace" => Some(Command::Run {
            form: RunForm::Trace,
        }),
        "run --trace --commits" => Some(Command::Run {
            form: RunForm::TraceWithCommits,
        }),
        _ => None,
    }
}

/// The kind with this name: a command, `trace`, or a width and a way to read lines.
pub fn kind_of(name: &str) -> Option<Kind> {
    if let Some(command) = command_of(name) {
        return Some(Kind::Command(command));
    }
    if name == "trace" {
        return Some(Kind::Trace);
    }
    let (width, reading) = name.split_once(' ')?;
    Some(Kind::Lines(reading_of(reading)?, width_of(width)?))
}
