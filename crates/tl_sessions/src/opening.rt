//! The arguments from which C makes monitors, judges, coverings, clients and managers.

ghost use Rattle.std.specs.Prelude.{◌≡◌, ◌≤◌, ◌++◌, drop, map, length, replicate, IfOk};
ghost use Rattle.tl_beat.specs.statement.Width.{IsWidth};
ghost use Rattle.tl_sessions.specs.statement.Opened.{may_open, may_open_under, new_answer, Makes, MakesUnder};
ghost use Rattle.tl_pictures.specs.statement.Codes.{level_at, flag_at};
ghost use Rattle.tl_sessions.specs.statement.Covering.{MakesCovering};
ghost use Rattle.tl_sessions.specs.statement.ClientOpened.{may_open_client, MakesClient};
ghost use Rattle.tl_sessions.specs.statement.ManagerOpened.{may_open_manager, profile_code, MakesManager};
ghost use Rattle.tl_sessions.specs.statement.TogetherOpened.{MakesJudge};
ghost use Rattle.tl_sessions.specs.statement.EventsOpened.{completeness_at, may_open_events, MakesEvents};
ghost use Rattle.tl_sessions.specs.statement.WideOpened.{may_open_wide, may_open_wide_events};

use crate::event_judge::EventJudge;
use std::alloc::{AllocError, Global};
use tl_commits::fault::CommitFault;
use tl_commits::judge::CommitJudge;
use tl_cover::covering::Covering;
use tl_monitor::monitor::Monitor;
use tl_partner::terms::Terms;
use tl_pictures::answer::Answer;
use tl_pictures::codes::{
    are_flags, are_levels, flag_of, is_flag, is_profile, is_wide_width, is_width, level_of,
    liberties_of, profile_of,
};
use tl_pictures::config::{LinkConfig, config_of, links_fit};
use tl_ports::client::ClientPort;
use tl_ports::manager::ManagerPort;
use tl_rules::config::{ClientConfig, MOST_CLIENTS, NewFault};
use tl_rules::level::Level;
use tl_rules::liberties::Liberties;
use tl_together::fault::JudgeFault;
use tl_together::judge::Judge;

/// Whether the arguments fit: 1 to 16 levels, 0 to 2 each, a width of 4, 8 or 16 and a profile of 1 or 2.
pub fn may_open(codes: &[u8], width: u8, profile: u8) -> bool
    ensures { result ≡ may_open codes.now width profile }
{
    may_open_under(codes, width) && is_profile(profile)
}

fn levels_of(alloc: Global, codes: &[u8]) -> Result<Vec<Level>, AllocError>
    ensures { IfOk result (λ levels. levels.items ≡ map level_at codes.now) }
{
    let mut levels = Vec::new(alloc);
    for code in codes {
        levels.push(level_of(*code))?;
    }
    Ok(levels)
}

/// A monitor that has judged no beat.
pub fn make<const W: usize>(alloc: Global, codes: &[u8], profile: u8) -> Result<Monitor<W>, Answer>
    requires width { IsWidth W }
    ensures { Makes codes.now profile result }
{
    let Ok(levels) = levels_of(alloc, codes) else {
        return Err(Answer::NO_MEMORY);
    };
    match Monitor::new(alloc, levels.as_slice(), profile_of(profile)) {
        Ok(monitor) => Ok(monitor),
        Err(fault) => Err(Answer::of(Err(fault))),
    }
}

/// Whether the arguments fit: 1 to 16 levels, 0 to 2 each, and a width of 4, 8 or 16.
pub fn may_open_under(codes: &[u8], width: u8) -> bool
    ensures { result ≡ may_open_under codes.now width }
{
    1 <= codes.len() && codes.len() <= MOST_CLIENTS && are_levels(codes) && is_width(width)
}

/// A covering of links with these liberties that has judged no beat.
pub fn make_covering<const W: usize>(
    alloc: Global,
    codes: &[u8],
    liberties: u8,
) -> Result<Covering<W>, Answer>
    requires width { IsWidth W }
    ensures { MakesCovering codes.now liberties result }
{
    let Ok(levels) = levels_of(alloc, codes) else {
        return Err(Answer::NO_MEMORY);
    };
    match Covering::new(alloc, levels.as_slice(), liberties_of(liberties)) {
        Ok(covering) => Ok(covering),
        Err(fault) => Err(Answer::of(Err(fault))),
    }
}

/// A monitor of links with these liberties that has judged no beat.
pub fn make_under<const W: usize>(
    alloc: Global,
    codes: &[u8],
    liberties: u8,
) -> Result<Monitor<W>, Answer>
    requires width { IsWidth W }
    ensures { MakesUnder codes.now liberties result }
{
    let Ok(levels) = levels_of(alloc, codes) else {
        return Err(Answer::NO_MEMORY);
    };
    match Monitor::with_liberties(alloc, levels.as_slice(), liberties_of(liberties)) {
        Ok(monitor) => Ok(monitor),
        Err(fault) => Err(Answer::of(Err(fault))),
    }
}

/// A judge of all links with these liberties that has judged no beat.
pub fn make_judge<const W: usize>(
    alloc: Global,
    codes: &[u8],
    liberties: Liberties,
) -> Result<Judge<W>, Answer>
    requires width { IsWidth W }
    ensures { MakesJudge codes.now liberties result }
{
    let Ok(levels) = levels_of(alloc, codes) else {
        return Err(Answer::NO_MEMORY);
    };
    match Judge::with_liberties(alloc, levels.as_slice(), liberties) {
        Ok(judge) => Ok(judge),
        Err(JudgeFault::Memory) => Err(Answer::NO_MEMORY),
        Err(_) => Err(Answer::BAD),
    }
}

/// Whether the arguments fit: 1 to 16 levels, 0 to 2 each, a flag of 0 or 1 for each and for memory, and a width of 4, 8
/// or 16.
pub fn may_open_events(codes: &[u8], complete: &[u8], zero: u8, width: u8) -> bool
    ensures { result ≡ may_open_events codes.now complete.now zero width }
{
    may_open_under(codes, width)
        && complete.len() == codes.len()
        && are_flags(complete)
        && is_flag(zero)
}

fn flags_of(alloc: Global, codes: &[u8]) -> Result<Vec<bool>, AllocError>
    ensures { IfOk result (λ flags. flags.items ≡ map flag_at codes.now) }
{
    let mut flags = Vec::new(alloc);
    for code in codes {
        flags.push(flag_of(*code))?;
    }
    Ok(flags)
}

/// A judge of beats and commits of all links with these liberties that has judged no event. `complete` says which links
/// have all their stores in the trace, and `zero` whether memory was zero before it.
pub fn make_events<const W: usize>(
    alloc: Global,
    codes: &[u8],
    complete: &[u8],
    zero: u8,
    liberties: u8,
) -> Result<EventJudge<W>, Answer>
    requires width { IsWidth W }
    ensures { MakesEvents codes.now (completeness_at complete.now zero) liberties result }
{
    let Ok(levels) = levels_of(alloc, codes) else {
        return Err(Answer::NO_MEMORY);
    };
    let Ok(flags) = flags_of(alloc, complete) else {
        return Err(Answer::NO_MEMORY);
    };
    let liberties = liberties_of(liberties);
    let (levels, flags) = (levels.as_slice(), flags.as_slice());
    match CommitJudge::with_liberties(alloc, levels, flags, flag_of(zero), liberties) {
        Ok(judge) => Ok(EventJudge {
            judge,
            closed: false,
        }),
        Err(CommitFault::Memory) => Err(Answer::NO_MEMORY),
        Err(_) => Err(Answer::BAD),
    }
}

/// Whether the arguments fit: 1 to 16 levels, 0 to 2 each, and a width of 4, 8, 16, 32 or 64.
pub fn may_open_wide(codes: &[u8], width: u8) -> bool
    ensures { result ≡ may_open_wide codes.now width }
{
    1 <= codes.len() && codes.len() <= MOST_CLIENTS && are_levels(codes) && is_wide_width(width)
}

/// Whether the arguments fit: those of `may_open_wide`, and a flag of 0 or 1 for each level and for memory.
pub fn may_open_wide_events(codes: &[u8], complete: &[u8], zero: u8, width: u8) -> bool
    ensures { result ≡ may_open_wide_events codes.now complete.now zero width }
{
    may_open_wide(codes, width)
        && complete.len() == codes.len()
        && are_flags(complete)
        && is_flag(zero)
}

/// The answer to a client or a manager that can't be made for this reason.
fn answer_of(fault: NewFault) -> Answer
    ensures { result ≡ new_answer fault }
{
    match fault {
        NewFault::Memory => Answer::NO_MEMORY,
        _ => Answer::BAD,
    }
}

/// Whether the arguments fit: a level of 0 to 2, 1 to 1,024 blocks, 1 to 8 sources, a width of 4, 8 or 16 and a profile
/// of 1 or 2.
pub fn may_open_client(level: u8, blocks: u16, sources: u8, width: u8, profile: u8) -> bool
    ensures { result ≡ may_open_client level blocks sources width profile }
{
    level < 3
        && 1 <= blocks
        && blocks <= 1024
        && 1 <= sources
        && sources <= 8
        && is_width(width)
        && is_profile(profile)
}

/// A client that has sent and taken nothing.
pub fn make_client<const W: usize>(
    alloc: Global,
    level: u8,
    blocks: u16,
    sources: u8,
    profile: u8,
) -> Result<ClientPort<W>, Answer>
    requires width { IsWidth W }
    ensures { MakesClient level blocks sources profile result }
{
    let config = ClientConfig {
        level: level_of(level),
        sources,
    };
    match ClientPort::new(alloc, config, blocks, profile_of(profile)) {
        Ok(port) => Ok(port),
        Err(fault) => Err(answer_of(fault)),
    }
}

/// Whether the arguments fit: 1 to 16 links, each with a level of 0 to 2 and 1 to 8 sources, 1 to 1,024 blocks, 1 to 8
/// trackers, a width of 4, 8 or 16 and a profile of 1 or 2.
pub fn may_open_manager(
    links: &[LinkConfig],
    blocks: u16,
    trackers: u8,
    width: u8,
    profile: u8,
) -> bool
    ensures { result ≡ may_open_manager links.now blocks trackers width profile }
{
    1 <= links.len()
        && links.len() <= MOST_CLIENTS
        && links_fit(links)
        && 1 <= blocks
        && blocks <= 1024
        && 1 <= trackers
        && trackers <= 8
        && is_width(width)
        && is_profile(profile)
}

/// The code of a manager's profile: 2 if it grants a lone reader toT, which is `writer`, otherwise 1.
pub fn profile_code(liberties: Liberties) -> u8
    ensures { result ≡ profile_code liberties }
{
    if liberties.writer { 2 } else { 1 }
}

/// The sources of the Probes of 16 links: these first, then zeros.
pub fn probe_sources(sources: &[u8]) -> [u8; 16]
    requires { length sources.now ≤ 16 }
    ensures { result ≡ sources.now ++ drop (length sources.now) (replicate 16 0) }
{
    let mut of_links = [0; 16];
    of_links[..sources.len()].copy_from_slice(sources);
    of_links
}

/// A manager that has taken and handed out nothing, of at most 16 links, which grants its clients these terms.
pub fn make_manager<const W: usize>(
    alloc: Global,
    links: &[LinkConfig],
    blocks: u16,
    trackers: u8,
    profile: u8,
    terms: Terms,
) -> Result<ManagerPort<W>, Answer>
    requires width { IsWidth W }
    requires few { length links.now ≤ 16 }
    ensures { MakesManager links.now blocks trackers profile terms result }
{
    let config = config_of(links, blocks, trackers, profile);
    match ManagerPort::new(alloc, &config, terms) {
        Ok(port) => Ok(port),
        Err(fault) => Err(answer_of(fault)),
    }
}
