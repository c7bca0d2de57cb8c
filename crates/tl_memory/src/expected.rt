//! The bytes that responses may bring.

ghost use Rattle.std.specs.Prelude.{ℕ, true, ◌+◌, ◌*◌, ◌/◌, ◌<◌, ◌≤◌, ◌≡◌, Some};
ghost use Rattle.tl_beat.specs.declared.beat.Beat.TheVariants as beat;
ghost use Rattle.tl_beat.specs.statement.Width.{IsWidth};
ghost use Rattle.tl_rules.specs.code.Place.{base_of};
ghost use Rattle.tl_rules.specs.statement.Admission.{lanes_of};
ghost use Rattle.tl_rules.specs.statement.Conformance.{Trace};
ghost use Rattle.tl_rules.specs.statement.History.{block_at};
ghost use Rattle.tl_bytes.specs.statement.Bytes.{Access, each_from, grants_truly, reads_truly};
ghost use Rattle.tl_bytes.specs.statement.Known.{KnowsGrant};

use crate::access::reaches;
use crate::typed::prove_response;
use tl_beat::beat::BeatD;
use tl_bytes::read_bytes::ReadBytes;
use tl_rules::place::base;

/// The bytes that a response may bring to a request of this address and size. Any byte beyond that is allowed.
#[derive(Drop)]
pub struct Expected {
    pub address: u32,
    pub size: u8,
    pub bytes: ReadBytes,
}

impl Expected {
    ghost use Rattle.tl_memory.specs.code.Expected.{allows};
    ghost use Rattle.tl_memory.specs.statement.Known.{Expects, is_to};

    /// Whether this byte is allowed at a place of the block. Any byte is that the request doesn't reach.
    pub fn allows(&self, place: usize, byte: u8) -> bool
        ensures { place < 64 → result ≡ allows self.now (64 * block_at self.now.address + place) byte }
    {
        if place >= 64 || !reaches(self.address, self.size, place) {
            return true;
        }
        self.bytes.may_bring(place as u8, byte)
    }

    /// Whether these bytes are allowed at the places of the block from this one on.
    fn allows_all<const W: usize>(&self, first: usize, lanes: &[u8; W]) -> bool
        ensures { first + W ≤ 64 →
            result ≡ each_from (allows self.now) (64 * block_at self.now.address + first) lanes.now }
    {
        for lane in 0..W {
            if !self.allows(first.saturating_add(lane), lanes[lane]) {
                return false;
            }
        }
        true
    }

    /// Whether the bytes of a beat are allowed. `beats` is the number of beats of the response before it.
    fn allows_lanes<const W: usize>(&self, beats: usize, x: &BeatD<W>) -> bool
        requires { IsWidth W }
        ensures { base_of W self.now.address + W * beats + W ≤ 64 →
            result ≡ each_from (allows self.now) (W * (self.now.address / W) + W * beats) (lanes_of (beat.D x.now)) }
    {
        if self.bytes.is_open() {
            return true;
        }
        match &x.lanes {
            None => true,
            Some(lanes) => {
                let first = base::<W>(self.address).saturating_add(W.saturating_mul(beats));
                self.allows_all(first, lanes)
            }
        }
    }

    /// Whether the bytes of a beat of the response are allowed. `beats` is the number of its beats before.
    pub fn is_expected<const W: usize>(&self, beats: usize, x: &BeatD<W>) -> bool
        requires { IsWidth W }
        ensures granted { (n block : ℕ) (t : Trace W) → self.now.address ≡ 64 * block → self.now.size ≡ 6 →
            KnowsGrant self.now.bytes n block t → W * beats + W ≤ 64 → result ≡ grants_truly n block beats x.now t }
        ensures read { (n block : ℕ) (access : Access W) (t : Trace W) →
            Expects (Some self.now) n block (Some access) t → is_to block access ≡ true →
            base_of W access.request.address + W * beats + W ≤ 64 → result ≡ reads_truly n (Some access) beats x.now t }
    {
        prove_response(x);
        self.allows_lanes(beats, x)
    }
}
