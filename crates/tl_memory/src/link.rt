//! The state of a link.

ghost use Rattle.std.specs.Box.{box_value};
ghost use Rattle.std.specs.Prelude.{ℕ, true, false, [], ◌∷◌, ◌≡◌, ◌≤◌, List, None, length, option_copied, option_map};
ghost use Rattle.tl_beat.specs.declared.beat.Beat.TheVariants as beat;
ghost use Rattle.tl_beat.specs.declared.beat.{Beat.Beat, BeatD.BeatD, Link.Link};
ghost use Rattle.tl_beat.specs.declared.channel.Channel.TheVariants as channel;
ghost use Rattle.tl_beat.specs.statement.Width.{IsWidth};
ghost use Rattle.tl_burst.specs.statement.Messages.{History, unfinished};
ghost use Rattle.tl_params.specs.declared.level.Level.{Level};
ghost use Rattle.tl_rules.specs.statement.Conformance.{Trace, on_link};
ghost use Rattle.tl_rules.specs.statement.Liberties.{broken_after_under, is_legal_under};
ghost use Rattle.tl_bytes.specs.statement.Free.{all_liberties};
ghost use Rattle.tl_rules.specs.statement.History.{begins};
ghost use Rattle.tl_bytes.specs.statement.Bytes as bytes;
ghost use Rattle.tl_memory.specs.code.Allowed as allowed;
ghost use Rattle.tl_memory.specs.code.Early as early;
ghost use Rattle.tl_memory.specs.code.Elsewhere.{IsConcerned};

use crate::boxed::value_of;
use crate::early::{Asking, Doubt, Granting, Releasing};
use crate::expected::Expected;
use crate::message::{CarriedMessage, is_small};
use crate::typed::prove_request;
use crate::unfinished::{
    acknowledged, asking_after, granting_after, overtaken, releasing_after, releasing_answered,
};
use tl_beat::beat::{Beat, BeatC, BeatD};
use tl_beat::opcode::OpD;
use tl_rules::key::block_at;

/// The unfinished messages of a link on channels A, C and D, which carry bytes to memory and back, and the fields of them
/// that an early answer depends on.
#[derive(Clone, Copy)]
pub struct LinkMessages {
    pub a: CarriedMessage,
    pub c: CarriedMessage,
    pub d: CarriedMessage,
    /// The unfinished request on channel A.
    pub asking: Option<Asking>,
    /// The unfinished Release on channel C.
    pub releasing: Option<Releasing>,
    /// The unfinished Grant on channel D.
    pub granting: Option<Granting>,
}

impl LinkMessages {
    ghost use Rattle.tl_memory.specs.statement.Links.{KnowsMessages};

    /// No message on any channel.
    pub fn new() -> Self
        ensures { (w : ℕ) → KnowsMessages {w = w} result [] }
    {
        LinkMessages {
            a: CarriedMessage::new(),
            c: CarriedMessage::new(),
            d: CarriedMessage::new(),
            asking: None,
            releasing: None,
            granting: None,
        }
    }

    /// The unfinished request with this source, if there is one.
    pub fn asks_with(&self, source: u8) -> Option<Asking>
        ensures { result ≡ early.asks_with self.now.asking source }
    {
        match self.asking {
            Some(asking) if asking.source == source => Some(asking),
            _ => None,
        }
    }

    /// The block of the unfinished Release with this source, if there is one.
    pub fn releases_with(&self, source: u8) -> Option<u32>
        ensures { result ≡ early.releases_with self.now.releasing source }
    {
        match self.releasing {
            Some(releasing) if releasing.source == source => Some(releasing.block),
            _ => None,
        }
    }

    /// Whether the unfinished Release, if there is one, was answered already.
    pub fn is_released(&self) -> bool
        ensures { result ≡ early.is_answered self.now.releasing }
    {
        match self.releasing {
            Some(releasing) => releasing.answered,
            None => false,
        }
    }

    /// The block of the unfinished Grant with this sink, if there is one.
    pub fn grants_with(&self, sink: u8) -> Option<u32>
        ensures { result ≡ early.grants_with self.now.granting sink }
    {
        match self.granting {
            Some(granting) if granting.sink == sink => Some(granting.block),
            _ => None,
        }
    }

    /// Whether the later beats of the unfinished Grant, if there is one, are in doubt.
    pub fn is_overtaken(&self) -> bool
        ensures { result ≡ early.is_in_doubt self.now.granting }
    {
        match self.granting {
            Some(granting) => granting.doubt == Doubt::Overtaken,
            None => false,
        }
    }

    /// Whether the bytes of the next beat of a response with this opcode are in doubt.
    fn doubts(&self, opcode: OpD) -> bool
        ensures { result ≡ early.is_doubted opcode self.now.granting }
    {
        match opcode {
            OpD::GrantData => self.is_overtaken(),
            _ => false,
        }
    }

    /// Takes a beat of channel C.
    fn take_report<const W: usize>(&mut self, x: &BeatC<W>)
        requires width { IsWidth W }
        requires small { x.now.size ≤ 6 }
        ensures { (l : Level) (t : History W) → KnowsMessages self.old t → is_legal_under all_liberties l t ≡ true →
            broken_after_under all_liberties l (beat.C x.now) t ≡ None → KnowsMessages self.new (beat.C x.now ∷ t) }
    {
        let beat = Beat::C(*x);
        let completes = self.c.completes(&beat);
        self.c.take(&beat);
        self.releasing = releasing_after(self.releasing, x, completes);
        if completes {
            self.granting = overtaken(self.granting, block_at(x.address));
        }
    }

    /// Takes a beat of channel D, which concerns this block, if it concerns one.
    fn take_response<const W: usize>(&mut self, x: &BeatD<W>, block: Option<u32>)
        requires width { IsWidth W }
        requires small { x.now.size ≤ 6 }
        ensures { (l : Level) (t : History W) → KnowsMessages self.old t → is_legal_under all_liberties l t ≡ true →
            broken_after_under all_liberties l (beat.D x.now) t ≡ None → IsConcerned block (beat.D x.now) t →
            KnowsMessages self.new (beat.D x.now ∷ t) }
    {
        let beat = Beat::D(*x);
        let completes = self.d.completes(&beat);
        self.d.take(&beat);
        self.granting = granting_after(self.granting, x, block, completes);
        self.releasing = releasing_answered(self.releasing, x, completes);
    }

    /// Takes a beat, which concerns this block, if it concerns one. A beat whose size no message may have is left out:
    /// it breaks a rule.
    pub fn take<const W: usize>(&mut self, beat: &Beat<W>, block: Option<u32>)
        requires { IsWidth W }
        ensures { (l : Level) (t : History W) → KnowsMessages self.old t → is_legal_under all_liberties l t ≡ true →
            broken_after_under all_liberties l beat.now t ≡ None → IsConcerned block beat.now t →
            KnowsMessages self.new (beat.now ∷ t) }
    {
        if !is_small(beat) {
            return;
        }
        match beat {
            Beat::A(x) => {
                prove_request(x);
                self.asking = asking_after(x, self.a.completes(beat));
                self.a.take(beat);
            }
            Beat::C(x) => self.take_report(x),
            Beat::D(x) => self.take_response(x, block),
            Beat::E(x) => self.granting = acknowledged(self.granting, x.sink),
            Beat::B(_) => {}
        }
    }
}

/// Whether a response brings bytes to a client, which are judged.
fn is_judged(opcode: OpD) -> bool
    ensures { result ≡ allowed.is_judged opcode }
{
    matches!(opcode, OpD::GrantData | OpD::AccessAckData)
}

/// Whether the bytes of a beat of a response are allowed. `beats` is the number of its beats before.
fn is_allowed<const W: usize>(expected: Option<&Expected>, beats: usize, x: &BeatD<W>) -> bool
    requires { IsWidth W }
    ensures { allowed.IsAllowed (option_copied expected.entry) beats x.now result }
{
    match expected {
        None => true,
        Some(known) => known.is_expected(beats, x),
    }
}

/// The state of a link: the unfinished messages, and the bytes that the unfinished response on channel D may bring.
/// These are on the heap, and are never moved.
#[derive(Drop)]
pub struct LinkState {
    pub messages: LinkMessages,
    expected: Option<Box<Expected>>,
}

impl LinkState {
    ghost use Rattle.tl_memory.specs.statement.Expecting.{ExpectsBeat, ExpectsLater, ExpectsResponse};
    ghost use Rattle.tl_memory.specs.statement.Links.{AreLegal, IsLegal, KnowsLink};

    /// No message on any channel.
    pub fn new() -> Self
        ensures { (w n link : ℕ) → KnowsLink {w = w} result n link [] }
    {
        LinkState {
            messages: LinkMessages::new(),
            expected: None,
        }
    }

    /// The bytes that the response may bring with its next beat. `now` are those of a response that begins with it, or
    /// of the answer to a Get.
    pub fn expected<'a>(&'a self, now: Option<&'a Expected>) -> Option<&'a Expected>
        ensures { (w n : ℕ) (levels : List Level) (link : Link) (x : BeatD w) (t : Trace w) →
            KnowsLink self.now n link.0 t → AreLegal levels t → IsLegal levels (link, beat.D x) t →
            (begins (beat.D x) (on_link link.0 t) ≡ true →
            ExpectsResponse (option_copied now.entry) n link.0 x.opcode x.source t t) →
            (begins (beat.D x) (on_link link.0 t) ≡ false → ExpectsLater (option_copied now.entry) n link.0 x.opcode x.source t) →
            ExpectsBeat (option_copied result) n link.0 x.opcode x.source
            (length (unfinished channel.D (on_link link.0 t))) t }
    {
        let beats = self.messages.d.bytes.count();
        if beats == 0 {
            return now;
        }
        match now {
            Some(known) => Some(known),
            None => value_of(&self.expected),
        }
    }

    /// Whether the bytes of a response's beat are true. `now` are the bytes that it may bring if it begins with the
    /// beat or answers a Get.
    pub fn is_true<const W: usize>(&self, now: Option<&Expected>, x: &BeatD<W>) -> bool
        requires { IsWidth W }
        ensures { (levels : List Level) (n : ℕ) (link : Link) (t : Trace W) →
            KnowsLink self.now n link.0 t → AreLegal levels t → IsLegal levels (link, beat.D x.now) t →
            (begins (beat.D x.now) (on_link link.0 t) ≡ true →
            ExpectsResponse (option_copied now.entry) n link.0 x.now.opcode x.now.source t t) →
            (begins (beat.D x.now) (on_link link.0 t) ≡ false →
            ExpectsLater (option_copied now.entry) n link.0 x.now.opcode x.now.source t) →
            result ≡ bytes.is_true x.now.opcode n link.0 x.now t }
    {
        if x.corrupt || x.denied {
            return true;
        }
        if !is_judged(x.opcode) {
            return true;
        }
        if self.messages.doubts(x.opcode) {
            return true;
        }
        is_allowed(self.expected(now), self.messages.d.bytes.count(), x)
    }

    /// Takes a beat, which concerns this block, if it concerns one. `begun` are the bytes that the response may bring that
    /// begins with it.
    pub fn take<const W: usize>(
        &mut self,
        begun: Option<Box<Expected>>,
        block: Option<u32>,
        x: &Beat<W>,
    )
        requires { IsWidth W }
        ensures { (levels : List Level) (n : ℕ) (link : Link) (t : Trace W) →
            KnowsLink self.old n link.0 t → AreLegal levels t → IsLegal levels (link, x.now) t →
            IsConcerned block x.now (on_link link.0 t) → ((y : BeatD W) → x.now ≡ beat.D y → begins (beat.D y) (on_link link.0 t) ≡ true →
            ExpectsResponse (option_map box_value begun) n link.0 y.opcode y.source t t) →
            KnowsLink self.new n link.0 ((link, x.now) ∷ t) }
    {
        let first = self.messages.d.bytes.count() == 0;
        self.messages.take(x, block);
        match x {
            Beat::D(_) => {
                if first {
                    self.expected = begun;
                }
            }
            _ => {}
        }
    }
}
