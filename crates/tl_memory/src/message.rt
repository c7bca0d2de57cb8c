//! The bytes and the mask of a message's beats.

ghost use Rattle.std.specs.Prelude.{ℕ, [], ◌∷◌, ◌+◌, ◌*◌, ◌^◌, ◌<◌, ◌≤◌, ◌&&◌, ◌||◌, ◌≡◌, IsTrue, List, length};
ghost use Rattle.tl_beat.specs.declared.beat.Beat.{Beat};
ghost use Rattle.tl_beat.specs.statement.Width.{IsWidth};
ghost use Rattle.tl_burst.specs.statement.Messages.{grown};
ghost use Rattle.tl_burst.specs.statement.Part;
ghost use Rattle.tl_bytes.specs.statement.Bytes.{carried_mask};

use tl_beat::beat::Beat;
use tl_burst::burst::burst_length;
use tl_bytes::carried::CarriedBytes;
use tl_rules::admission::is_spoiled;

/// The bytes and the mask of a message's beats so far, and whether one of them was corrupt or denied.
#[derive(Clone, Copy)]
pub struct CarriedMessage {
    pub bytes: CarriedBytes,
    pub mask: u64,
    pub spoiled: bool,
}

/// Whether a message may have the size of a beat.
pub fn is_small<const W: usize>(beat: &Beat<W>) -> bool
    ensures { result ≡ Part.is_small beat.now }
{
    match beat {
        Beat::A(x) => x.size <= 6,
        Beat::B(x) => x.size <= 6,
        Beat::C(x) => x.size <= 6,
        Beat::D(x) => x.size <= 6,
        Beat::E(_) => true,
    }
}

/// A mask with that of one more beat, which comes after this many.
fn with_mask<const W: usize>(mask: u64, beats: usize, bits: u16) -> u64
    requires { IsWidth W }
    ensures { W * beats + W ≤ 64 → bits < 2 ^ W → mask < 2 ^ (W * beats) →
        result ≡ mask + bits * 2 ^ (W * beats) }
{
    let from = W.saturating_mul(beats);
    if from >= 64 {
        return mask;
    }
    mask.wrapping_add(u64::from(bits) << from)
}

/// Whether one of two is true.
pub fn either(one: bool, other: bool) -> bool
    ensures { result ≡ (one || other) }
{
    one || other
}

/// Whether both are true.
pub fn both(one: bool, other: bool) -> bool
    ensures { result ≡ (one && other) }
{
    one && other
}

impl CarriedMessage {
    ghost use Rattle.tl_memory.specs.statement.Known.{HasRoom, KnowsMessage};

    /// A message without beats.
    pub fn new() -> Self
        ensures { (w : ℕ) → KnowsMessage {w = w} result [] }
    {
        CarriedMessage {
            bytes: CarriedBytes::new(),
            mask: 0,
            spoiled: false,
        }
    }

    /// Whether a beat completes the message.
    pub fn completes<const W: usize>(&self, beat: &Beat<W>) -> bool
        requires width { IsWidth W }
        requires small { IsTrue (Part.is_small beat.now) }
        ensures { (burst : List (Beat W)) → KnowsMessage self.now burst → length burst < 64 →
            result ≡ Part.completes beat.now burst }
    {
        self.bytes.count().saturating_add(1) == usize::from(burst_length(beat))
    }

    /// The mask with that of the next beat.
    fn mask_with<const W: usize>(&self, beat: &Beat<W>) -> u64
        requires { IsWidth W }
        ensures { (burst : List (Beat W)) → KnowsMessage self.now burst → HasRoom beat.now burst →
            (result ≡ carried_mask (beat.now ∷ burst)) × (result < 2 ^ (W * length (beat.now ∷ burst))) }
    {
        match beat {
            Beat::A(x) => with_mask::<W>(self.mask, self.bytes.count(), x.mask),
            _ => 0,
        }
    }

    /// Adds the next beat.
    fn add<const W: usize>(&mut self, beat: &Beat<W>)
        requires { IsWidth W }
        ensures { (burst : List (Beat W)) → KnowsMessage self.old burst → HasRoom beat.now burst →
            KnowsMessage self.new (beat.now ∷ burst) }
    {
        self.mask = self.mask_with(beat);
        self.spoiled = either(is_spoiled(beat), self.spoiled);
        self.bytes.add(beat);
    }

    /// The message with the next beat.
    pub fn with<const W: usize>(&self, beat: &Beat<W>) -> Self
        requires { IsWidth W }
        ensures { (burst : List (Beat W)) → KnowsMessage self.now burst → HasRoom beat.now burst →
            KnowsMessage result (beat.now ∷ burst) }
    {
        let mut all = *self;
        all.add(beat);
        all
    }

    /// Begins the next message, without beats.
    fn clear(&mut self)
        ensures { (w : ℕ) (burst : List (Beat w)) → KnowsMessage self.old burst → KnowsMessage {w = w} self.new [] }
    {
        if self.bytes.count() > 0 {
            *self = CarriedMessage::new();
        }
    }

    /// Takes the next beat. After the last one, no beat of the next message has come.
    pub fn take<const W: usize>(&mut self, beat: &Beat<W>)
        requires width { IsWidth W }
        requires small { IsTrue (Part.is_small beat.now) }
        ensures { (burst : List (Beat W)) → KnowsMessage self.old burst → HasRoom beat.now burst →
            KnowsMessage self.new (grown beat.now burst) }
    {
        if self.completes(beat) {
            self.clear();
        } else {
            self.add(beat);
        }
    }
}
