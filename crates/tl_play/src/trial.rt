//! A trial: a header, and lines after it.

use tl_rules::config::{Config, NewFault};
use tl_schedule::header::{Schedule, read_schedule};

/// The text of a trial, from its header on.
#[derive(Clone, Copy)]
pub struct Trial<'a> {
    pub text: &'a str,
}

/// The header of the trial, which is that of a schedule.
pub fn schedule_of(trial: Trial) -> Option<Schedule> {
    let header = trial.text.split_inclusive('\n').next()?;
    read_schedule(header.as_bytes())
}

/// The configuration in the header.
pub fn config_of(trial: Trial) -> Result<Config, NewFault> {
    match schedule_of(trial) {
        Some(schedule) => Ok(schedule.config),
        None => Err(NewFault::N1),
    }
}
