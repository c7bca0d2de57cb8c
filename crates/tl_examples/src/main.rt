//! Judges each trace of data/, some of them with all links together, plays each schedule, and explains the traces and
//! the rules. Writes the results.
#![tactic(auto)]

mod explaining;
mod judging;
mod playing;
mod schedules;
mod traces;

use explaining::{NAMES, explain_all, tell_names};
use judging::judge_all;
use playing::tell_all;
use schedules::{SCHEDULES, TRACED};
use std::process::ExitCode;
use tl_engine::command::{Command, RunForm};
use traces::{COMMITS, EARLY, FAULTS, LIBERTIES, PENDING, TOGETHER, TRACES, WIDE};

fn main(rt: HostRuntime) -> ExitCode {
    let run = Command::Run {
        form: RunForm::Outcomes,
    };
    let trace = Command::Run {
        form: RunForm::Trace,
    };
    let commits = Command::Run {
        form: RunForm::TraceWithCommits,
    };
    if tell_all(&rt, Command::Monitor, &TRACES, b": ")
        && tell_all(&rt, Command::Coherent, &TOGETHER, b" coherent: ")
        && judge_all(&rt, false, &WIDE, b": ")
        && judge_all(&rt, true, &WIDE, b" coherent: ")
        && judge_all(&rt, true, &EARLY, b" coherent: ")
        && judge_all(&rt, false, &COMMITS, b": ")
        && judge_all(&rt, true, &COMMITS, b" coherent: ")
        && tell_all(&rt, run, &SCHEDULES, b":\n")
        && tell_all(&rt, trace, &TRACED, b" --trace:\n")
        && tell_all(&rt, commits, &TRACED, b" --trace --commits:\n")
        && explain_all(&rt, false, &TRACES)
        && explain_all(&rt, false, &FAULTS)
        && explain_all(&rt, false, &PENDING)
        && explain_all(&rt, false, &LIBERTIES)
        && explain_all(&rt, true, &TOGETHER)
        && explain_all(&rt, true, &EARLY)
        && tell_names(&rt, &NAMES)
    {
        ExitCode::SUCCESS
    } else {
        ExitCode::FAILURE
    }
}
