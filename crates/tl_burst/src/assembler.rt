//! Messages assembled from the beats of a channel.

ghost use Rattle.std.specs.Prelude.{slice_get, ℕ, Bool, List, [], ◌∷◌, not, IsTrue, OnErr, OnOk, IfOk, if◌then◌else◌};
ghost use Rattle.std.specs.Prelude.{option_to_list, ◌++◌, ◌==◌, IfSome, is_some, is_err, ◌≡◌, ◌<◌, ◌+◌};
ghost use Rattle.std.specs.Bool.{OnTrue, OnFalse};
ghost use Rattle.tl_beat.specs.declared.beat.Beat.{Beat};
ghost use Rattle.tl_beat.specs.statement.Width.{IsWidth};
ghost use Rattle.tl_burst.specs.declared.message.Message.{Message};
ghost use Rattle.tl_burst.specs.statement.Burst;
ghost use Rattle.tl_burst.specs.statement.Burst.{begun, beat_of, IsBlankAfter, IsBurst};
ghost use Rattle.tl_burst.specs.statement.Messages.{breaks_burst, same_control, grown, Splits};
ghost use Rattle.tl_burst.specs.statement.Part.{IsTakeable, completes, is_empty, is_middle, part_of};
ghost use Rattle.tl_burst.specs.statement.Written.{written};

use crate::burst::{beat_at, beats_of, burst_length};
use crate::gather::{blank_for, continues, write_beat};
use crate::message::{Message, MessageE};
use crate::part::{Broken, Part};
use std::marker::Model;
use tl_beat::beat::Beat;

/// Assembles the messages of one channel. A contract sees an assembler as the beats of its unfinished burst, the newest
/// first.
#[derive(Drop)]
pub struct Assembler<const W: usize> {
    /// The message with the beats that were taken. The parts of its other beats are zero.
    message: Message<W>,
    /// The number of beats of the message that were taken; 0 if no burst is unfinished.
    taken: u8,
}

impl<const W: usize> Model for Assembler<W> {
    ghost Value = { List (Beat W) };

    ghost view = { λ a. begun a.message a.taken };

    ghost invariant = { λ a. (a.taken < Burst.beats_of a.message) × (0 < a.taken → IsBlankAfter a.taken a.message) };
}

/// Whether a beat can follow the first `taken` beats of a message. If there are none yet, the message becomes an empty
/// one with the beat's control fields.
fn prepare<const W: usize>(message: &mut Message<W>, taken: u8, beat: &Beat<W>) -> bool
    requires width { IsWidth W }
    requires takeable { IsTakeable beat.now }
    requires within { taken < Burst.beats_of message.old }
    requires blank { 0 < taken → IsBlankAfter taken message.old }
    ensures broken { result ≡ not (breaks_burst beat.now (begun message.old taken)) }
    ensures unchanged { OnFalse result (message.new ≡ message.old) }
    ensures same { OnTrue result (IsTrue (same_control beat.now (beat_of message.new 0))) }
    ensures blank { OnTrue result (IsBlankAfter taken message.new) }
    ensures within { taken < Burst.beats_of message.new }
    ensures burst { begun message.new taken ≡ begun message.old taken }
{
    if taken == 0 {
        *message = blank_for(beat);
        true
    } else {
        continues(message, beat)
    }
}

/// Writes the message of a beat that is the only one of its burst, and returns whether it is. Otherwise nothing
/// changes.
fn take_only<const W: usize>(message: &mut Message<W>, beat: &Beat<W>) -> bool
    requires width { IsWidth W }
    requires takeable { IsTakeable beat.now }
    ensures only { result ≡ completes beat.now [] }
    ensures whole { OnTrue result (IsBurst message.new (beat.now ∷ [])) }
    ensures left { OnFalse result (message.new ≡ message.old) }
{
    if burst_length(beat) != 1 {
        return false;
    }
    *message = blank_for(beat);
    write_beat(message, 0, beat);
    true
}

impl<const W: usize> Assembler<W> {
    /// An assembler that has taken no beat.
    pub fn new() -> Self
        ensures { result ≡ [] }
    {
        Assembler {
            message: Message::E(MessageE { sink: 0 }),
            taken: 0,
        }
    }

    /// Whether a burst is unfinished.
    pub fn has_begun(&self) -> bool
        ensures { result ≡ not (is_empty self.now) }
    {
        self.taken > 0
    }

    /// The newest beat of the unfinished burst.
    pub fn newest(&self) -> Option<Beat<W>>
        requires { IsWidth W }
        ensures { result ≡ slice_get self.now 0 }
    {
        if self.taken == 0 {
            return None;
        }
        Some(beat_at(&self.message, self.taken - 1))
    }

    /// The place of the beat in its burst. The error is S1 if a control field differs from that of the unfinished
    /// burst.
    pub fn peek(&self, beat: &Beat<W>) -> Result<Part, Broken>
        requires width { IsWidth W }
        requires takeable { IsTakeable beat.now }
        ensures { result ≡ part_of beat.now self.now }
    {
        let last = self.taken + 1 == burst_length(beat);
        if self.taken == 0 {
            return Ok(if last { Part::Only } else { Part::First });
        }
        if !continues(&self.message, beat) {
            return Err(Broken::S1);
        }
        Ok(if last { Part::Last } else { Part::Middle })
    }

    /// Takes a beat that continues the unfinished burst and doesn't complete it, and returns whether it does. Otherwise
    /// nothing changes.
    pub fn goes_on(&mut self, beat: &Beat<W>) -> bool
        requires width { IsWidth W }
        requires takeable { IsTakeable beat.now }
        ensures part { result ≡ is_middle (part_of beat.now self.old) }
        ensures grows { OnTrue result (self.new ≡ beat.now ∷ self.old) }
        ensures unchanged { OnFalse result (self.new ≡ self.old) }
    {
        if self.taken == 0 {
            return false;
        }
        if !continues(&self.message, beat) {
            return false;
        }
        if self.taken + 1 == burst_length(beat) {
            return false;
        }
        write_beat(&mut self.message, self.taken, beat);
        self.taken += 1;
        true
    }

    /// Takes a beat and returns the message that it completes, if it completes one. The error is S1 if a control field
    /// differs from that of the unfinished burst; then nothing changes.
    pub fn take(&mut self, beat: &Beat<W>) -> Result<Option<Message<W>>, Broken>
        requires width { IsWidth W }
        requires takeable { IsTakeable beat.now }
        ensures refused { is_err result ≡ breaks_burst beat.now self.old }
        ensures unchanged { OnErr result (self.new ≡ self.old) }
        ensures grows { OnOk result (self.new ≡ grown beat.now self.old) }
        ensures message { IfOk result (λ m. (is_some m ≡ completes beat.now self.old)
            × IfSome m (λ m. IsBurst m (beat.now ∷ self.old))) }
        // the next beat of any message whose unused parts are zero
        ensures whole { (m : Message W) (i : ℕ) → self.old ≡ begun m i → beat.now ≡ beat_of m i →
            i < Burst.beats_of m → IsBlankAfter (Burst.beats_of m) m →
            result ≡ Ok (if i + 1 == Burst.beats_of m then Some m else None) }
        ensures splits { (beats : List (Beat W)) (messages : List (Message W)) →
            Splits beats messages self.old →
            IfOk result (λ m. Splits (beat.now ∷ beats) (option_to_list m ++ messages) self.new) }
    {
        let mut message = Message::E(MessageE { sink: 0 });
        let completes = self.take_into(beat, &mut message)?;
        if completes {
            Ok(Some(message))
        } else {
            Ok(None)
        }
    }

    /// Takes a beat as `take` does, with the same error, but writes the message into `message` and returns whether the
    /// beat completes one.
    pub fn take_into(&mut self, beat: &Beat<W>, message: &mut Message<W>) -> Result<bool, Broken>
        requires width { IsWidth W }
        requires takeable { IsTakeable beat.now }
        ensures refused { is_err (written message.new result) ≡ breaks_burst beat.now self.old }
        ensures unchanged { OnErr (written message.new result) (self.new ≡ self.old) }
        ensures grows { OnOk (written message.new result) (self.new ≡ grown beat.now self.old) }
        ensures message { IfOk (written message.new result) (λ m. (is_some m ≡ completes beat.now self.old)
            × IfSome m (λ m. IsBurst m (beat.now ∷ self.old))) }
        // the next beat of any message whose unused parts are zero
        ensures whole { (m : Message W) (i : ℕ) → self.old ≡ begun m i → beat.now ≡ beat_of m i →
            i < Burst.beats_of m → IsBlankAfter (Burst.beats_of m) m →
            written message.new result ≡ Ok (if i + 1 == Burst.beats_of m then Some m else None) }
        ensures splits { (beats : List (Beat W)) (messages : List (Message W)) →
            Splits beats messages self.old →
            IfOk (written message.new result) (λ m. Splits (beat.now ∷ beats) (option_to_list m ++ messages) self.new) }
    {
        if self.taken == 0 && take_only(message, beat) {
            return Ok(true);
        }
        if !prepare(&mut self.message, self.taken, beat) {
            return Err(Broken::S1);
        }
        write_beat(&mut self.message, self.taken, beat);
        if self.taken + 1 < beats_of(&self.message) {
            self.taken += 1;
            return Ok(false);
        }
        self.taken = 0;
        *message = self.message;
        Ok(true)
    }
}
