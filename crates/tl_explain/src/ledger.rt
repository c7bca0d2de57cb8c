//! The messages pending at the end of a trace, with the lines in which they began.

ghost use Rattle.std.specs.Prelude.{◌≡◌, ◌<◌, ◌++◌, ◌∷◌, [], List, length, None, OnOk};
ghost use Rattle.tl_beat.specs.statement.Width.{IsWidth};
ghost use Rattle.tl_explain.specs.statement.Pending as order;
ghost use Rattle.tl_explain.specs.declared.ledger.Pending.{Pending};
ghost use Rattle.tl_explain.specs.statement.Pending.{IsNext, TellsOldest, TellsOne, TellsPending};

use crate::told::Spelling;
use crate::wording::Wording;
use itoa::Buffer;
use std::alloc::{AllocError, Global};
use std::collections::BTreeMap;
use tl_beat::beat::{Beat, Link};
use tl_beat::channel::Channel;
use tl_monitor::byte_table::ByteTable;
use tl_params::key::block_at;
use tl_rules::kind::{is_grant, is_probe, is_probe_ack, is_release, is_release_ack};

/// The kind of a message that has no answer yet.
#[derive(Clone, Copy, Debug, PartialEq, Eq)]
pub enum Kind {
    Request,
    Release,
    Grant,
    Probe,
    Burst,
}

/// The line in which a message began, with its number.
#[derive(Clone, Copy)]
struct Opening {
    line: u64,
    spelling: Spelling,
}

/// A message that is pending.
#[derive(Clone, Copy)]
struct Pending {
    kind: Kind,
    opening: Opening,
}

/// The messages pending on a link: requests and Releases by their source, Grants by their sink, Probes by their block,
/// and unfinished bursts by their channel.
#[derive(Drop)]
struct LinkLedger {
    bursts: [Option<Opening>; 5],
    requests: ByteTable<Opening>,
    releases: ByteTable<Opening>,
    grants: ByteTable<Opening>,
    probes: BTreeMap<u32, Opening>,
}

/// The pending messages of a trace, each with its line.
#[derive(Drop)]
pub struct Ledger {
    alloc: Global,
    links: Vec<LinkLedger>,
    /// The number of lines that have come, with the header.
    lines: u64,
    pending: Vec<Pending>,
}

/// The most messages that are listed.
const TOLD: usize = 20;

/// The answer that a pending message lacks.
fn missing(kind: Kind) -> &'static str
    ensures { result.now ≡ order.missing kind }
{
    match kind {
        Kind::Request => "a request without an answer",
        Kind::Release => "a Release without ReleaseAck",
        Kind::Grant => "a Grant without GrantAck",
        Kind::Probe => "a Probe without ProbeAck",
        Kind::Burst => "a burst that isn't complete",
    }
}

/// The order of entries with the same line: a burst comes after the message that its first beat began.
fn rank(kind: Kind) -> u8
    ensures { result ≡ order.rank kind }
{
    match kind {
        Kind::Request => 0,
        Kind::Release => 1,
        Kind::Grant => 2,
        Kind::Probe => 3,
        Kind::Burst => 4,
    }
}

impl Pending {
    /// Whether this message comes before another.
    fn is_before(&self, other: &Pending) -> bool
        ensures { result ≡ order.is_before self.now other.now }
    {
        let (line, behind) = (self.opening.line, other.opening.line);
        line < behind || line == behind && rank(self.kind) < rank(other.kind)
    }

    /// Whether this message comes after another, if there is another.
    fn is_behind(&self, after: &Option<Pending>) -> bool
        ensures { result ≡ order.is_behind after.now self.now }
    {
        match after {
            None => true,
            Some(other) => other.is_before(self),
        }
    }

    /// The older of `oldest`, if there is one, and this message, if it comes after `after`.
    fn or_older(&self, oldest: Option<Pending>, after: &Option<Pending>) -> Option<Pending>
        ensures { (before : List Pending) → IsNext before after.now oldest →
            IsNext (before ++ self.now ∷ []) after.now result }
    {
        if !self.is_behind(after) {
            return oldest;
        }
        match &oldest {
            None => Some(*self),
            Some(other) => {
                if self.is_before(other) {
                    Some(*self)
                } else {
                    oldest
                }
            }
        }
    }

    /// Appends the answer that the message lacks, and its line.
    fn append<const W: usize, X: Wording<W>>(
        &self,
        wording: &X,
        out: &mut Vec<u8>,
    ) -> Result<(), AllocError>
        requires { IsWidth W }
        ensures { OnOk result (TellsOne (X.says wording.now) self.now out.old.items out.new.items) }
    {
        append_missing(self.kind, out)?;
        wording.append_recorded(self.opening.line, &self.opening.spelling, out)
    }
}

/// Appends the answer that a message lacks, in a line of its own.
#[tactic(auto, unfolding(crate::specs::statement::Pending::missing_line))]
fn append_missing(kind: Kind, out: &mut Vec<u8>) -> Result<(), AllocError>
    ensures { OnOk result (out.new.items ≡ out.old.items ++ order.missing_line kind) }
{
    out.extend_from_slice(b"  ")?;
    out.extend_from_slice(missing(kind).as_bytes())?;
    out.extend_from_slice(b":\n")
}

/// Appends the number of pending messages.
#[tactic(auto, unfolding(crate::specs::statement::Pending::pending_heading))]
fn append_heading(count: u64, out: &mut Vec<u8>) -> Result<(), AllocError>
    ensures { OnOk result (out.new.items ≡ out.old.items ++ order.pending_heading count) }
{
    let mut digits = Buffer::new();
    out.extend_from_slice(b"  pending at the end: ")?;
    out.extend_from_slice(digits.format(count).as_bytes())?;
    out.extend_from_slice(b", the oldest first\n")?;
    Ok(())
}

/// Appends the number of messages after those that are listed.
#[tactic(auto, unfolding(crate::specs::statement::Pending::pending_rest))]
fn append_rest(count: u64, out: &mut Vec<u8>) -> Result<(), AllocError>
    ensures { OnOk result (out.new.items ≡ out.old.items ++ order.pending_rest count) }
{
    if count <= 20 {
        return Ok(());
    }
    let mut digits = Buffer::new();
    out.extend_from_slice(b"  and ")?;
    out.extend_from_slice(digits.format(count - 20).as_bytes())?;
    out.extend_from_slice(b" more\n")
}

/// The place of a channel.
fn place(channel: Channel) -> usize
    ensures { result < 5 }
{
    match channel {
        Channel::A => 0,
        Channel::B => 1,
        Channel::C => 2,
        Channel::D => 3,
        Channel::E => 4,
    }
}

impl LinkLedger {
    /// No message is pending.
    fn new(alloc: Global) -> Self {
        LinkLedger {
            bursts: [None; 5],
            requests: ByteTable::new(),
            releases: ByteTable::new(),
            grants: ByteTable::new(),
            probes: BTreeMap::new(alloc),
        }
    }

    /// Makes the message pending that begins with this beat.
    fn open<const W: usize>(&mut self, beat: &Beat<W>, opening: Opening) -> Result<(), AllocError> {
        match beat {
            Beat::A(x) => self.requests.set(x.source, Some(opening)),
            Beat::B(x) if is_probe(x.opcode) => {
                let block = block_at(x.address);
                if self.probes.insert(block, opening).is_err() {
                    return Err(AllocError);
                }
            }
            Beat::C(x) if is_release(x.opcode) => self.releases.set(x.source, Some(opening)),
            Beat::D(x) if is_grant(x.opcode) => self.grants.set(x.sink, Some(opening)),
            _ => {}
        }
        self.bursts[place(beat.channel())] = Some(opening);
        Ok(())
    }

    /// Removes the message that this beat answers by completing a message.
    fn close<const W: usize>(&mut self, beat: &Beat<W>) {
        match beat {
            Beat::C(x) if is_probe_ack(x.opcode) => {
                self.probes.remove(&block_at(x.address));
            }
            Beat::D(x) if is_release_ack(x.opcode) => self.releases.set(x.source, None),
            Beat::D(x) => self.requests.set(x.source, None),
            Beat::E(x) => self.grants.set(x.sink, None),
            _ => {}
        }
        self.bursts[place(beat.channel())] = None;
    }

    /// Takes the next beat of the link, from the line with this number. `first` says that it begins a message, `last`
    /// that it completes one.
    fn take<const W: usize>(
        &mut self,
        number: u64,
        line: &[u8],
        beat: &Beat<W>,
        first: bool,
        last: bool,
    ) -> Result<(), AllocError> {
        if first {
            let opening = Opening {
                line: number,
                spelling: Spelling::of(line),
            };
            self.open(beat, opening)?;
        }
        if last {
            self.close(beat);
        }
        Ok(())
    }

    /// Appends the messages pending on the link.
    fn list(&self, pending: &mut Vec<Pending>) -> Result<(), AllocError> {
        append_openings(Kind::Request, &self.requests, pending)?;
        append_openings(Kind::Release, &self.releases, pending)?;
        append_openings(Kind::Grant, &self.grants, pending)?;
        for (_, opening) in &self.probes {
            pending.push(Pending {
                kind: Kind::Probe,
                opening: *opening,
            })?;
        }
        for burst in self.bursts {
            if let Some(opening) = burst {
                pending.push(Pending {
                    kind: Kind::Burst,
                    opening,
                })?;
            }
        }
        Ok(())
    }
}

/// Appends the messages of a table.
fn append_openings(
    kind: Kind,
    table: &ByteTable<Opening>,
    pending: &mut Vec<Pending>,
) -> Result<(), AllocError> {
    for number in 0..=255u8 {
        if let Some(opening) = table.get(number) {
            pending.push(Pending { kind, opening })?;
        }
    }
    Ok(())
}

impl Ledger {
    /// The ledger of a trace before its header.
    pub fn new(alloc: Global) -> Self {
        Ledger {
            alloc,
            links: Vec::new(alloc),
            lines: 0,
            pending: Vec::new(alloc),
        }
    }

    /// Begins after the header of a trace with this many links. The error means that there is no memory left.
    pub fn begin(&mut self, count: usize) -> Result<(), AllocError> {
        self.lines = 1;
        self.links.clear();
        for _ in 0..count {
            self.links.push(LinkLedger::new(self.alloc))?;
        }
        Ok(())
    }

    /// Takes the beat of the next line, which breaks no rule. `first` says that it begins a message of its link, `last`
    /// that it completes one. Beats of a link that the header doesn't name don't count.
    pub fn take<const W: usize>(
        &mut self,
        line: &[u8],
        link: Link,
        beat: &Beat<W>,
        first: bool,
        last: bool,
    ) -> Result<(), AllocError> {
        self.lines = self.lines.saturating_add(1);
        match self.links.get_mut(usize::from(link.0)) {
            None => Ok(()),
            Some(ledger) => ledger.take(self.lines, line, beat, first, last),
        }
    }

    /// The oldest pending message that comes after this one.
    fn next(&self, after: &Option<Pending>) -> Option<Pending>
        ensures { IsNext self.now.pending.items after.now result }
    {
        let mut oldest: Option<Pending> = None;
        for pending in self.pending.as_slice() {
            oldest = pending.or_older(oldest, after);
        }
        oldest
    }

    /// Appends the oldest pending messages, in their order.
    fn append_oldest<const W: usize, X: Wording<W>>(
        &self,
        wording: &X,
        out: &mut Vec<u8>,
    ) -> Result<(), AllocError>
        requires { IsWidth W }
        ensures { OnOk result (TellsOldest (X.says wording.now) self.now.pending.items None 20 out.old.items
            out.new.items) }
    {
        let mut after = None;
        for _ in 0..TOLD {
            let Some(pending) = self.next(&after) else {
                return Ok(());
            };
            pending.append(wording, out)?;
            after = Some(pending);
        }
        Ok(())
    }

    /// Appends the number of pending messages, the oldest of them in this wording, and the number of the others.
    pub fn tell<const W: usize, X: Wording<W>>(
        &mut self,
        wording: &X,
        out: &mut Vec<u8>,
    ) -> Result<(), AllocError>
        requires { IsWidth W }
        ensures { OnOk result (TellsPending (X.says wording.now) self.new.pending.items out.old.items out.new.items) }
    {
        self.pending.clear();
        for link in &self.links {
            link.list(&mut self.pending)?;
        }
        if self.pending.is_empty() {
            return out.extend_from_slice(b"  nothing is pending at the end\n");
        }
        let count = self.pending.len() as u64;
        append_heading(count, out)?;
        self.append_oldest(wording, out)?;
        append_rest(count, out)
    }
}
