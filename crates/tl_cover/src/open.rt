//! The sources with a pending request of each kind, and those with a pending Release.

ghost use Rattle.std.specs.Prelude.{ℕ, [], is_some, ◌≡◌};
ghost use Rattle.tl_beat.specs.statement.Width.{IsWidth};
ghost use Rattle.tl_burst.specs.statement.Messages.{History};
ghost use Rattle.tl_cover.specs.code.Open.{KnowsOpen, OpenTaken, asked_open, release_open};
ghost use Rattle.tl_cover.specs.statement.Kinds;
ghost use Rattle.tl_cover.specs.statement.Scene as scenes;
ghost use Rattle.tl_monitor.specs.statement.Count.{at};

use crate::situation::Pending;
use tl_beat::beat::Beat;
use tl_beat::opcode::OpA;
use tl_monitor::byte_table::ByteTable;
use tl_rules::kind::{is_acquire, is_release, is_release_ack};

/// The sources with a pending request of each kind, and those with a pending Release.
#[derive(Drop)]
pub struct Open {
    acquires: ByteTable<()>,
    gets: ByteTable<()>,
    puts: ByteTable<()>,
    atomics: ByteTable<()>,
    releases: ByteTable<()>,
}

/// Whether requests of this opcode are of a kind.
fn asks(kind: Pending, opcode: OpA) -> bool
    ensures { result ≡ Kinds.asks kind opcode }
{
    match kind {
        Pending::Acquire => is_acquire(opcode),
        Pending::Get => matches!(opcode, OpA::Get),
        Pending::Put => matches!(opcode, OpA::PutFullData | OpA::PutPartialData),
        Pending::Atomic => matches!(opcode, OpA::ArithmeticData | OpA::LogicalData),
        _ => false,
    }
}

/// Something, if the test is passed.
fn only_if(test: bool) -> Option<()>
    ensures { is_some result ≡ test }
{
    if test { Some(()) } else { None }
}

/// Notes the source of a request that begins with a beat, if it is of this kind, and removes that of a response.
fn note_request<const W: usize>(
    sources: &mut ByteTable<()>,
    kind: Pending,
    first: bool,
    last: bool,
    beat: &Beat<W>,
)
    ensures { (s : ℕ) → is_some (at sources.new s)
        ≡ asked_open kind first last beat.now s (is_some (at sources.old s)) }
{
    match beat {
        Beat::A(x) if first => sources.set(x.source, only_if(asks(kind, x.opcode))),
        Beat::D(x) if last && !is_release_ack(x.opcode) => sources.set(x.source, None),
        _ => {}
    }
}

/// Notes the source of a Release that begins with a beat, and removes that of a ReleaseAck.
fn note_release<const W: usize>(
    sources: &mut ByteTable<()>,
    first: bool,
    last: bool,
    beat: &Beat<W>,
)
    ensures { (s : ℕ) → is_some (at sources.new s) ≡ release_open first last beat.now s (is_some (at sources.old s)) }
{
    match beat {
        Beat::C(x) if first && is_release(x.opcode) => sources.set(x.source, Some(())),
        Beat::D(x) if last && is_release_ack(x.opcode) => sources.set(x.source, None),
        _ => {}
    }
}

impl Open {
    /// Those of a link that has carried nothing.
    pub fn none() -> Open
        ensures { (w : ℕ) → KnowsOpen {w = w} result [] }
    {
        Open {
            acquires: ByteTable::new(),
            gets: ByteTable::new(),
            puts: ByteTable::new(),
            atomics: ByteTable::new(),
            releases: ByteTable::new(),
        }
    }

    /// Takes a beat, by whether it begins and ends a message.
    pub fn take<const W: usize>(&mut self, first: bool, last: bool, beat: &Beat<W>)
        ensures { OpenTaken self.old self.new first last beat.now }
    {
        note_request(&mut self.acquires, Pending::Acquire, first, last, beat);
        note_request(&mut self.gets, Pending::Get, first, last, beat);
        note_request(&mut self.puts, Pending::Put, first, last, beat);
        note_request(&mut self.atomics, Pending::Atomic, first, last, beat);
        note_release(&mut self.releases, first, last, beat);
    }

    /// The number of pending requests of the kind of this opcode.
    pub fn alike(&self, opcode: OpA) -> usize
        ensures { (w : ℕ) (h : History w) → KnowsOpen self.now h → result ≡ scenes.alike_pending opcode h }
    {
        match opcode {
            OpA::AcquireBlock | OpA::AcquirePerm => self.acquires.len(),
            OpA::Get => self.gets.len(),
            OpA::PutFullData | OpA::PutPartialData => self.puts.len(),
            OpA::ArithmeticData | OpA::LogicalData => self.atomics.len(),
            OpA::Intent => 0,
        }
    }

    /// The number of pending Releases.
    pub fn releases(&self) -> usize
        ensures { (w : ℕ) (h : History w) → KnowsOpen self.now h → result ≡ scenes.releases_pending h }
    {
        self.releases.len()
    }
}
