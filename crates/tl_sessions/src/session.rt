//! The session in a handle. A call on a session of another kind is bad input.

ghost use Rattle.std.specs.Prelude.{◌≡◌, true};
ghost use Rattle.tl_sessions.specs.statement.Opened.{OpensTo, OpensUnder, ok_of, answer_in};
ghost use Rattle.tl_sessions.specs.statement.Sessions.{PushSession, TrySession, LineSession, EntriesSession};
ghost use Rattle.tl_sessions.specs.statement.Sessions.{ClientOpens, AsksSession, OffersSession, StallsSession};
ghost use Rattle.tl_sessions.specs.statement.Sessions.{NextSession, PopSession, HeldSession, CopySession, ClosedSession};
ghost use Rattle.tl_sessions.specs.statement.ManagerOpened.{may_open_manager};
ghost use Rattle.tl_sessions.specs.statement.Sessions.{ManagerOpens, ManagerOpensUnder, OpensManager};
ghost use Rattle.tl_sessions.specs.statement.Sessions.{AdmitsSession, StallsAtSession, NextAtSession};
ghost use Rattle.tl_sessions.specs.statement.Sessions.{PopAtSession, ClosedAtSession};

use crate::client::AnyPort;
use crate::cover::AnyCovering;
use crate::event_judge::AnyEventJudge;
use crate::judge::AnyJudge;
use crate::manager::AnyManager;
use crate::monitor::AnyMonitor;
use crate::opening::{
    make, make_client, make_manager, make_under, may_open, may_open_client, may_open_manager,
    may_open_under, probe_sources, profile_code,
};
use crate::wide::AnyWide;
use crate::{client, manager, monitor};
use std::alloc::Global;
use tl_partner::terms::Terms;
use tl_pictures::answer::Answer;
use tl_pictures::codes::liberties_of;
use tl_pictures::config::LinkConfig;
use tl_pictures::operation::Operation;
use tl_pictures::outcome::{Outcome, Reception};
use tl_pictures::picture::Picture;

/// The contents of a handle: a monitor, a judge of all links, a covering, a client or manager with its beats to send,
/// a monitor or judge of wide beats, or a judge of beats, or of wide beats, and commits.
#[derive(Drop)]
pub enum Session {
    Monitor(AnyMonitor),
    Judge(AnyJudge),
    Covering(AnyCovering),
    Client(AnyPort),
    Manager(AnyManager),
    WideMonitor(AnyWide),
    WideJudge(AnyWide),
    WideEvents(AnyWide),
    Events(AnyEventJudge),
}

/// The answer of the monitor, client or manager in a session, of any width. A session of another kind is bad
/// input.
macro_rules! of_any {
    ($held:ident, $any:ident, $session:expr, $port:ident => $answer:expr) => {
        match $session {
            Session::$held($any::Four($port)) => $answer,
            Session::$held($any::Eight($port)) => $answer,
            Session::$held($any::Sixteen($port)) => $answer,
            _ => Answer::BAD,
        }
    };
}

impl Session {
    /// A new monitor of this width.
    pub fn open(alloc: Global, codes: &[u8], width: u8, profile: u8) -> Result<Session, Answer>
        ensures told { OpensTo codes.now width profile (ok_of result) (answer_in result) }
    {
        if !may_open(codes, width, profile) {
            return Err(Answer::BAD);
        }
        let monitor = match width {
            4 => AnyMonitor::Four(make(alloc, codes, profile)?),
            8 => AnyMonitor::Eight(make(alloc, codes, profile)?),
            16 => AnyMonitor::Sixteen(make(alloc, codes, profile)?),
            _ => return Err(Answer::BAD),
        };
        Ok(Session::Monitor(monitor))
    }

    /// A new monitor of links with these liberties, of this width.
    pub fn open_under(
        alloc: Global,
        codes: &[u8],
        width: u8,
        liberties: u8,
    ) -> Result<Session, Answer>
        ensures told { OpensUnder codes.now width liberties (ok_of result) (answer_in result) }
    {
        if !may_open_under(codes, width) {
            return Err(Answer::BAD);
        }
        let monitor = match width {
            4 => AnyMonitor::Four(make_under(alloc, codes, liberties)?),
            8 => AnyMonitor::Eight(make_under(alloc, codes, liberties)?),
            16 => AnyMonitor::Sixteen(make_under(alloc, codes, liberties)?),
            _ => return Err(Answer::BAD),
        };
        Ok(Session::Monitor(monitor))
    }

    /// Judges a beat of a link with the session's monitor. A beat that breaks a rule closes it.
    pub fn push(&mut self, link: u8, beat: &Picture) -> Answer
        ensures { PushSession link beat.now result self.old self.new }
    {
        of_any!(Monitor, AnyMonitor, self, held => monitor::push(held, link, beat))
    }

    /// Judges a beat of a link with the session's monitor. A beat that breaks a rule doesn't close it.
    pub fn try_push(&mut self, link: u8, beat: &Picture) -> Answer
        ensures { TrySession link beat.now result self.old self.new }
    {
        of_any!(Monitor, AnyMonitor, self, held => monitor::try_push(held, link, beat))
    }

    /// Judges the beat of a line of a trace with the session's monitor.
    pub fn push_line(&mut self, line: &[u8]) -> Answer
        ensures { LineSession line.now result self.old self.new }
    {
        of_any!(Monitor, AnyMonitor, self, held => monitor::push_line(held, line))
    }

    /// The number of keys pending and blocks held on a link of the session's monitor.
    pub fn entries(&self, link: u8, entries: &mut u64) -> Answer
        ensures { EntriesSession link entries.old entries.new result self.now }
    {
        of_any!(Monitor, AnyMonitor, self, held => monitor::entries(held, link, entries))
    }

    /// A new client of this level, with this many blocks and sources, on a link of this width.
    pub fn open_client(
        alloc: Global,
        level: u8,
        blocks: u16,
        sources: u8,
        width: u8,
        profile: u8,
    ) -> Result<Session, Answer>
        ensures told { ClientOpens level blocks sources width profile (ok_of result) (answer_in result) }
    {
        if !may_open_client(level, blocks, sources, width, profile) {
            return Err(Answer::BAD);
        }
        let port = match width {
            4 => AnyPort::Four(make_client(alloc, level, blocks, sources, profile)?),
            8 => AnyPort::Eight(make_client(alloc, level, blocks, sources, profile)?),
            16 => AnyPort::Sixteen(make_client(alloc, level, blocks, sources, profile)?),
            _ => return Err(Answer::BAD),
        };
        Ok(Session::Client(port))
    }

    /// Asks a client for an operation.
    pub fn ask(&mut self, operation: &Operation, outcome: &mut Outcome) -> Answer
        ensures { AsksSession operation.now outcome.old outcome.new result self.old self.new }
    {
        of_any!(Client, AnyPort, self, port => client::ask(port, operation, outcome))
    }

    /// Offers a client a beat.
    pub fn offer(&mut self, beat: &Picture, reception: &mut Reception) -> Answer
        ensures { OffersSession beat.now reception.old reception.new result self.old self.new }
    {
        of_any!(Client, AnyPort, self, port => client::offer(port, beat, reception))
    }

    /// Sets `stalled` to 1 if the client would stall a beat, otherwise to 0.
    pub fn stalls(&self, beat: &Picture, stalled: &mut u8) -> Answer
        ensures { StallsSession beat.now stalled.old stalled.new result self.now }
    {
        of_any!(Client, AnyPort, self, port => client::stalls(port, beat, stalled))
    }

    /// Shows the next beat that a client has to send on a channel.
    pub fn next(&self, channel: u8, beat: &mut Picture) -> Answer
        ensures { NextSession channel beat.old beat.new result self.now }
    {
        of_any!(Client, AnyPort, self, port => client::next(port, channel, beat))
    }

    /// Shows the next beat that a client has to send on a channel, and removes it.
    pub fn pop(&mut self, channel: u8, beat: &mut Picture) -> Answer
        ensures { PopSession channel beat.old beat.new result self.old self.new }
    {
        of_any!(Client, AnyPort, self, port => client::pop(port, channel, beat))
    }

    /// Sets `perm` to the permission that a client holds of a block.
    pub fn held(&self, block: u16, perm: &mut u8) -> Answer
        ensures { HeldSession block perm.old perm.new result self.now }
    {
        of_any!(Client, AnyPort, self, port => client::held(port, block, perm))
    }

    /// Shows the bytes of a client's copy of a block.
    pub fn copy(&self, block: u16, bytes: &mut [u8; 64]) -> Answer
        ensures { CopySession block bytes.old bytes.new result self.now }
    {
        of_any!(Client, AnyPort, self, port => client::copy(port, block, bytes))
    }

    /// Sets `is_closed` to 1 if a client has refused a beat, otherwise to 0.
    pub fn closed(&self, is_closed: &mut u8) -> Answer
        ensures { ClosedSession is_closed.old is_closed.new result self.now }
    {
        of_any!(Client, AnyPort, self, port => client::closed(port, is_closed))
    }

    /// A new manager of these links, of this width, that grants its clients these terms.
    fn manager_of(
        alloc: Global,
        links: &[LinkConfig],
        blocks: u16,
        trackers: u8,
        width: u8,
        profile: u8,
        terms: Terms,
    ) -> Result<Session, Answer>
        requires fits { may_open_manager links.now blocks trackers width profile ≡ true }
        ensures told { OpensManager links.now blocks trackers width profile terms true (ok_of result) (answer_in result) }
    {
        let manager = match width {
            4 => AnyManager::Four(make_manager(alloc, links, blocks, trackers, profile, terms)?),
            8 => AnyManager::Eight(make_manager(alloc, links, blocks, trackers, profile, terms)?),
            16 => AnyManager::Sixteen(make_manager(
                alloc, links, blocks, trackers, profile, terms,
            )?),
            _ => return Err(Answer::BAD),
        };
        Ok(Session::Manager(manager))
    }

    /// A new manager of these links, with this many blocks and trackers, of this width.
    pub fn open_manager(
        alloc: Global,
        links: &[LinkConfig],
        blocks: u16,
        trackers: u8,
        width: u8,
        profile: u8,
    ) -> Result<Session, Answer>
        ensures told { ManagerOpens links.now blocks trackers width profile (ok_of result) (answer_in result) }
    {
        if !may_open_manager(links, blocks, trackers, width, profile) {
            return Err(Answer::BAD);
        }
        Self::manager_of(
            alloc,
            links,
            blocks,
            trackers,
            width,
            profile,
            Terms::none(),
        )
    }

    /// A new manager of these links whose clients have these liberties. The Probes of each link have its source.
    pub fn open_manager_under(
        alloc: Global,
        links: &[LinkConfig],
        blocks: u16,
        trackers: u8,
        width: u8,
        liberties: u8,
        sources: &[u8],
    ) -> Result<Session, Answer>
        ensures told { ManagerOpensUnder links.now blocks trackers width liberties sources.now (ok_of result)
            (answer_in result) }
    {
        let liberties = liberties_of(liberties);
        let profile = profile_code(liberties);
        if !may_open_manager(links, blocks, trackers, width, profile)
            || sources.len() != links.len()
        {
            return Err(Answer::BAD);
        }
        let Some(terms) = Terms::of(liberties, probe_sources(sources)) else {
            return Err(Answer::BAD);
        };
        Self::manager_of(alloc, links, blocks, trackers, width, profile, terms)
    }

    /// Offers a manager a beat of a link.
    pub fn offer_on(&mut self, link: u8, beat: &Picture, taken: &mut u8) -> Answer
        ensures { AdmitsSession link beat.now taken.old taken.new result self.old self.new }
    {
        of_any!(Manager, AnyManager, self, port => manager::offer(port, link, beat, taken))
    }

    /// Sets `stalled` to 1 if the manager would stall a beat of a link, otherwise to 0.
    pub fn stalls_on(&self, link: u8, beat: &Picture, stalled: &mut u8) -> Answer
        ensures { StallsAtSession link beat.now stalled.old stalled.new result self.now }
    {
        of_any!(Manager, AnyManager, self, port => manager::stalls(port, link, beat, stalled))
    }

    /// Shows the next beat that a manager has to send on a channel of a link.
    pub fn next_on(&self, link: u8, channel: u8, beat: &mut Picture) -> Answer
        ensures { NextAtSession link channel beat.old beat.new result self.now }
    {
        of_any!(Manager, AnyManager, self, port => manager::next(port, link, channel, beat))
    }

    /// Shows the next beat that a manager has to send on a channel of a link, and removes it.
    pub fn pop_on(&mut self, link: u8, channel: u8, beat: &mut Picture) -> Answer
        ensures { PopAtSession link channel beat.old beat.new result self.old self.new }
    {
        of_any!(Manager, AnyManager, self, port => manager::pop(port, link, channel, beat))
    }

    /// Sets `is_closed` to 1 if a manager has refused a beat of a link or has no such link, otherwise to 0.
    pub fn closed_on(&self, link: u8, is_closed: &mut u8) -> Answer
        ensures { ClosedAtSession link is_closed.old is_closed.new result self.now }
    {
        of_any!(Manager, AnyManager, self, port => manager::closed(port, link, is_closed))
    }
}
