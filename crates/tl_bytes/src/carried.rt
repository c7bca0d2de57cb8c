//! The bytes that the beats of a message bring.

ghost use Rattle.std.specs.Prelude.{ℕ, [], ◌∷◌, ◌<◌, ◌≡◌, List, length, unwrap_or};
ghost use Rattle.tl_beat.specs.declared.beat.Beat.{Beat};
ghost use Rattle.tl_beat.specs.statement.Width.{IsWidth};
ghost use Rattle.tl_bytes.specs.code.Carried.{with_lanes};
ghost use Rattle.tl_bytes.specs.statement.KnownBytes.{known_at};

use crate::known_bytes::KnownBytes;
use tl_beat::beat::Beat;
use tl_rules::admission::is_spoiled;

/// The bytes that the beats of a message have brought, each at its place in the block. A byte isn't known if its beat
/// is to come, or is corrupt or denied.
#[derive(Clone, Copy)]
pub struct CarriedBytes {
    bytes: KnownBytes,
    beats: usize,
}

impl CarriedBytes {
    ghost use Rattle.tl_bytes.specs.statement.Known.{HasBytes, KnowsCarried};

    /// The bytes of no beat.
    pub fn new() -> Self
        ensures { (w : ℕ) → KnowsCarried {w = w} result [] }
    {
        CarriedBytes {
            bytes: KnownBytes::none(),
            beats: 0,
        }
    }

    /// Puts the bytes of one more beat at their places. Bytes beyond the block's 64 are left out.
    fn put<const W: usize>(&mut self, lanes: &[u8; W])
        requires { IsWidth W }
        ensures beats { self.new.beats ≡ self.old.beats }
        ensures bytes { (place : ℕ) → place < 64 → known_at self.new.bytes place
            ≡ with_lanes W self.old.beats lanes.now self.old.bytes place }
    {
        let first = W.saturating_mul(self.beats);
        let end = first.saturating_add(W);
        if end > 64 {
            return;
        }
        self.bytes.set_all(first, lanes);
    }

    /// Puts the bytes of a beat that has data.
    fn put_data<const W: usize>(&mut self, lanes: &Option<[u8; W]>)
        requires { IsWidth W }
        ensures beats { self.new.beats ≡ self.old.beats }
        ensures bytes { (place : ℕ) → place < 64 → known_at self.new.bytes place
            ≡ with_lanes W self.old.beats (unwrap_or lanes.now []) self.old.bytes place }
    {
        if let Some(lanes) = lanes {
            self.put(lanes);
        }
    }

    /// Puts the bytes of a beat that isn't corrupt or denied.
    fn bring<const W: usize>(&mut self, beat: &Beat<W>)
        requires { IsWidth W }
        ensures beats { self.new.beats ≡ self.old.beats }
        ensures bytes { (burst : List (Beat W)) → KnowsCarried self.old burst →
            HasBytes self.new.bytes (beat.now ∷ burst) }
    {
        if is_spoiled(beat) {
            return;
        }
        match beat {
            Beat::A(x) => self.put_data(&x.lanes),
            Beat::B(x) => self.put_data(&x.lanes),
            Beat::C(x) => self.put_data(&x.lanes),
            Beat::D(x) => self.put_data(&x.lanes),
            Beat::E(_) => {}
        }
    }

    /// Adds the bytes of the next beat.
    pub fn add<const W: usize>(&mut self, beat: &Beat<W>)
        requires { IsWidth W }
        ensures { (burst : List (Beat W)) → KnowsCarried self.old burst → length burst < 64 →
            KnowsCarried self.new (beat.now ∷ burst) }
    {
        self.bring(beat);
        self.beats = self.beats.saturating_add(1);
    }

    /// The number of beats.
    pub fn count(&self) -> usize
        ensures { (w : ℕ) (burst : List (Beat w)) → KnowsCarried self.now burst → result ≡ length burst }
    {
        self.beats
    }

    /// The bytes by their places.
    pub fn bytes(&self) -> &KnownBytes
        ensures { (w : ℕ) (burst : List (Beat w)) → KnowsCarried self.now burst → HasBytes result.now burst }
    {
        &self.bytes
    }
}
