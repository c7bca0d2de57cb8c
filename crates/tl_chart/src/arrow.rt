//! The messages of a trace, as a chart draws them.

ghost use Rattle.std.specs.Prelude.{◌≡◌};
ghost use Rattle.tl_beat.specs.declared.beat.Link.{Link};
ghost use Rattle.tl_burst.specs.statement.Messages.{on};
ghost use Rattle.tl_chart.specs.code.Lasting;
ghost use Rattle.tl_chart.specs.code.Moment.{IsMoment};
ghost use Rattle.tl_chart.specs.statement.Drawn;
ghost use Rattle.tl_chart.specs.statement.Messages.{continued, is_of};
ghost use Rattle.tl_chart.specs.statement.Messages.{channel_in};
ghost use Rattle.tl_rules.specs.statement.Conformance.{Trace};

use crate::window::is_same_block;
use tl_beat::beat::{Beat, Link};
use tl_beat::control::Control;
use tl_rules::kind::{is_grant, is_probe, is_probe_ack, is_release, is_release_ack};

/// A message of a trace: the control fields of its beats, its block, and the lines of its first beat and of its last so
/// far.
#[derive(Clone, Copy)]
pub struct Arrow {
    pub link: Link,
    pub control: Control,
    pub block: Option<u32>,
    /// The number of beats of the message.
    pub beats: u8,
    pub first: u64,
    pub last: u64,
    pub complete: bool,
    /// Whether its answer came before the lines that are drawn.
    pub answered: bool,
}

/// A beat of a trace: its link, the number of its line, and whether it begins and completes a message.
#[derive(Clone, Copy)]
pub struct Moment {
    pub link: Link,
    pub line: u64,
    pub first: bool,
    pub last: bool,
}

/// Whether a beat is of the channel of these control fields.
fn is_of_channel<const W: usize>(control: &Control, beat: &Beat<W>) -> bool
    ensures { result ≡ on (channel_in control.now) beat.now }
{
    match (control, beat) {
        (Control::A(_), Beat::A(_)) => true,
        (Control::B(_), Beat::B(_)) => true,
        (Control::C(_), Beat::C(_)) => true,
        (Control::D(_), Beat::D(_)) => true,
        (Control::E(_), Beat::E(_)) => true,
        _ => false,
    }
}

/// Whether a message needs an answer.
pub fn wants_answer(control: &Control) -> bool
    ensures { result ≡ Drawn.wants_answer control.now }
{
    match control {
        Control::A(_) => true,
        Control::B(x) => is_probe(x.opcode),
        Control::C(x) => is_release(x.opcode),
        Control::D(x) => is_grant(x.opcode),
        Control::E(_) => false,
    }
}

/// Whether a beat is of a message that needs an answer, and answers none.
fn asks<const W: usize>(beat: &Beat<W>) -> bool
    ensures { result ≡ Lasting.asks beat.now }
{
    match beat {
        Beat::A(_) => true,
        Beat::B(x) => is_probe(x.opcode),
        Beat::C(x) => is_release(x.opcode),
        Beat::D(_) | Beat::E(_) => false,
    }
}

/// Whether a message of this block, completed by a beat, answers an earlier message.
fn answers<const W: usize>(
    beat: &Beat<W>,
    block: Option<u32>,
    earlier: &Control,
    of: Option<u32>,
) -> bool
    ensures { result ≡ Drawn.answers beat.now block earlier.now of }
{
    match (beat, earlier) {
        (Beat::D(x), Control::A(y)) => !is_release_ack(x.opcode) && x.source == y.source,
        (Beat::D(x), Control::C(y)) => {
            is_release_ack(x.opcode) && is_release(y.opcode) && x.source == y.source
        }
        (Beat::E(x), Control::D(y)) => is_grant(y.opcode) && x.sink == y.sink,
        (Beat::C(x), Control::B(y)) => {
            is_probe_ack(x.opcode) && is_probe(y.opcode) && is_same_block(block, of)
        }
        _ => false,
    }
}

impl Moment {
    /// Whether messages may become closed by this beat: it completes a message, but not one of this beat alone that
    /// needs an answer.
    pub fn lets_go<const W: usize>(&self, beat: &Beat<W>) -> bool
        ensures { result ≡ Lasting.lets_go self.now beat.now }
    {
        self.last && !(self.first && asks(beat))
    }
}

impl Arrow {
    /// Whether a beat of a link is of the message: it has its link and channel, and beats of the message are missing.
    fn is_of<const W: usize>(&self, link: Link, beat: &Beat<W>) -> bool
        ensures { result ≡ is_of (link, beat.now) self.now }
    {
        self.link.0 == link.0 && is_of_channel(&self.control, beat) && !self.complete
    }

    /// The message after one more beat, changed if the beat is of it.
    pub fn with<const W: usize>(self, moment: &Moment, beat: &Beat<W>) -> Arrow
        ensures { (t : Trace W) → IsMoment moment.now (moment.now.link, beat.now) t →
            result ≡ continued (moment.now.link, beat.now) t self }
    {
        if self.is_of(moment.link, beat) {
            Arrow {
                last: moment.line,
                complete: moment.last,
                ..self
            }
        } else {
            self
        }
    }

    /// The message, marked as answered if this beat completes an answer to it. `block` is that of the beat's message.
    pub fn noted<const W: usize>(self, moment: &Moment, beat: &Beat<W>, block: Option<u32>) -> Arrow
        ensures { result ≡ Drawn.noted_by moment.now.link moment.now.last beat.now block self }
    {
        let answered = self.link.0 == moment.link.0
            && moment.last
            && answers(beat, block, &self.control, self.block);
        Arrow {
            answered: self.answered || answered,
            ..self
        }
    }

    /// Whether beats of the message are missing, or its answer.
    pub fn is_open(&self) -> bool
        ensures { result ≡ Drawn.is_open self.now }
    {
        !self.complete || wants_answer(&self.control) && !self.answered
    }
}
