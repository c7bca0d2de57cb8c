//! The messages that opened and closed the keys of a subject.

ghost use Rattle.std.specs.Prelude.{ℕ, ◌≡◌, ◌&&◌, ◌∷◌, []};
ghost use Rattle.tl_beat.specs.declared.beat.Link.{Link};
ghost use Rattle.tl_explain.specs.code.Recorded.{AreTurns, IsMoment, IsTurn, sink_in};
ghost use Rattle.tl_rules.specs.statement.Conformance.{Trace};
ghost use Rattle.tl_explain.specs.declared.turns.Subject.{Subject};

use crate::key::{closes, opens};
use crate::told::Told;
use crate::turn::Turn;
use tl_beat::beat::{Beat, Link};
use tl_beat::control::Control;
use tl_params::key::Key;

/// The keys that a verdict may depend on.
#[derive(Clone, Copy)]
pub struct Subject {
    pub link: Link,
    pub block: u32,
    pub source: u8,
    pub sink: u8,
}

/// A beat, the number of beats in its burst, whether it begins and completes a message, and the block of its message.
#[derive(Clone, Copy)]
pub struct Moment {
    pub told: Told,
    pub length: u8,
    pub first: bool,
    pub last: bool,
    pub block: Option<u32>,
}

/// The last messages that opened and closed each key of a subject.
#[derive(Clone, Copy)]
pub struct Turns {
    pub request: Turn,
    pub release_with_source: Turn,
    pub acquire: Turn,
    pub release: Turn,
    pub sink: Turn,
    pub grant_ack: Turn,
    pub probe: Turn,
}

/// The sink of a Grant.
#[inline(always)]
pub fn sink_of(told: &Option<Told>) -> Option<u8>
    ensures { result ≡ sink_in told.now }
{
    match told {
        None => None,
        Some(told) => match told.mention.control {
            Control::D(x) => Some(x.sink),
            _ => None,
        },
    }
}

/// Whether both are true.
#[inline(always)]
fn both(one: bool, other: bool) -> bool
    ensures { result ≡ (one && other) }
{
    one && other
}

/// Follows one key through one beat.
#[inline(always)]
fn note<const W: usize>(turn: &mut Turn, key: Key, beat: &Beat<W>, moment: &Moment)
    ensures { (n : ℕ) (link : Link) (t : Trace W) → IsMoment moment.now n (link, beat.now) t →
        IsTurn turn.old n key t → IsTurn turn.new n key ((link, beat.now) ∷ t) }
{
    let granted = sink_of(&turn.opening);
    turn.take(
        &moment.told,
        both(moment.first, opens(key, beat, moment.block)),
        both(moment.last, closes(key, beat, moment.block, granted)),
    );
}

impl Turns {
    /// No message has come.
    pub fn new() -> Self
        ensures { (w : ℕ) (subject : Subject) → AreTurns {w = w} result subject [] }
    {
        Turns {
            request: Turn::new(),
            release_with_source: Turn::new(),
            acquire: Turn::new(),
            release: Turn::new(),
            sink: Turn::new(),
            grant_ack: Turn::new(),
            probe: Turn::new(),
        }
    }

    /// Follows the keys through one beat of their link.
    pub fn take<const W: usize>(&mut self, subject: Subject, beat: &Beat<W>, moment: &Moment)
        ensures { (link : Link) (t : Trace W) → IsMoment moment.now subject.link.0 (link, beat.now) t →
            AreTurns self.old subject t → AreTurns self.new subject ((link, beat.now) ∷ t) }
    {
        let Subject {
            block,
            source,
            sink,
            ..
        } = subject;
        note(&mut self.request, Key::RequestSource(source), beat, moment);
        note(
            &mut self.release_with_source,
            Key::ReleaseSource(source),
            beat,
            moment,
        );
        note(&mut self.acquire, Key::AcquireOf(block), beat, moment);
        note(&mut self.release, Key::ReleaseOf(block), beat, moment);
        note(&mut self.sink, Key::GrantSink(sink), beat, moment);
        note(&mut self.grant_ack, Key::GrantAckOf(block), beat, moment);
        note(&mut self.probe, Key::ProbeOf(block), beat, moment);
    }
}
