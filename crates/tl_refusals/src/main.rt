//! Makes each call of the libraries that allocates memory, and reports for each whether it was done, or was refused
//! memory and changed nothing. If all requests for memory are granted, each call is done; `faults/` refuses them one by
//! one.
#![tactic(auto)]

mod calls;
mod judges;
mod narrowing;
mod worlds;

use std::println;
use std::process::ExitCode;

/// The result of a call.
#[derive(Clone, Copy, Debug, PartialEq, Eq)]
pub enum Came {
    /// It was done.
    Done,
    /// It was refused memory, and changed nothing.
    Refused,
    /// It had another answer, or changed something although it was refused.
    Wrong,
}

impl Came {
    fn word(self) -> &'static str {
        match self {
            Self::Done => "done",
            Self::Refused => "refused, and left what was",
            Self::Wrong => "WRONG",
        }
    }
}

fn main(rt: HostRuntime) -> ExitCode {
    let alloc = rt.alloc();
    let calls = [
        ("write_line", calls::appends(alloc)),
        ("Monitor::new", calls::makes_a_monitor(alloc)),
        ("Monitor::push", calls::pushes(alloc)),
        ("Judge::new", judges::makes_a_judge(alloc)),
        ("Judge::push", judges::judges(alloc)),
        ("Narrower::narrow", narrowing::narrows(alloc)),
        ("Caching::new", calls::makes_a_cache(alloc)),
        ("agents_of", calls::makes_clients(alloc)),
        ("BitDirectory::new", calls::makes_words(alloc)),
        ("TableDirectory::new", calls::makes_a_table(alloc)),
        ("Manager::new", worlds::makes_a_manager(alloc)),
        ("World::new", worlds::makes_a_world(alloc)),
        ("World::replay", worlds::replays(alloc)),
        ("World::run", worlds::runs(alloc)),
    ];
    let mut told = true;
    for (name, came) in calls {
        told &= println!(rt; "{name}: {}", came.word()).is_ok();
    }
    if told {
        ExitCode::SUCCESS
    } else {
        ExitCode::FAILURE
    }
}
