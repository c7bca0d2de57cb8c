//! The parts of a wide beat, of at most 16 bytes each.

ghost use Rattle.std.specs.Prelude.{ℕ, ◌≡◌, ◌≤◌, ◌<◌, ◌+◌, ◌*◌, ◌/◌, ◌^◌, ◌%◌, ◌==◌};
ghost use Rattle.std.specs.Bool.{OnTrue};
ghost use Rattle.std.specs.Prelude.{◌||◌, false, if◌then◌else◌, bit_and, is_some};
ghost use Rattle.tl_beat.specs.statement.Opcode.{a_carries_data, b_carries_data, c_carries_data, d_carries_data};
ghost use Rattle.tl_wide.specs.statement.Pieces.{carries_of, in_front, left_of, mask_in, piece_of};
ghost use Rattle.tl_wide.specs.statement.Pieces.{pieces_of, reached_at, size_in};
ghost use Rattle.tl_rules.specs.statement.Legality.{is_one_of};
ghost use Rattle.tl_wide.specs.statement.Narrowed.{lone_mask};
ghost use Rattle.tl_wide.specs.statement.Parts.{common_mask, has_stray, part_lanes, part_mask, parts_of, reaches_part};
ghost use Rattle.tl_wide.specs.statement.Parts.{shown_mask, shown_opcode};
ghost use Rattle.tl_wide.specs.statement.Width.{IsWideWidth, part_width};

use crate::beat::WideBeat;
use tl_beat::beat::{Beat, BeatA, BeatB, BeatC, BeatD, BeatE};
use tl_beat::opcode::OpA;

/// The numbers for the names of a beat, and the address of the request that a response answers.
#[derive(Clone, Copy)]
pub struct Named {
    pub source: u8,
    pub sink: u8,
    pub address: u32,
    pub asked: u64,
}

/// The message of a beat: its size and its address, and the beat's mask.
#[derive(Clone, Copy)]
struct Reach {
    size: u8,
    address: u64,
    mask: u64,
}

/// The number of bytes of a message of this size.
fn bytes_of(size: u8) -> usize
    requires { size < 6 }
    ensures value { result ≡ 2 ^ size }
    ensures some { 0 < result }
{
    1usize << size
}

/// Whether a part has a byte of the message.
fn reaches<const W: usize, const P: usize>(reach: Reach, part: usize) -> bool
    requires width { IsWideWidth W }
    requires parts { P ≡ part_width W }
    requires part { part < W / P }
    ensures { result ≡ reaches_part W reach.size reach.address part }
{
    if reach.size >= 6 {
        return true;
    }
    let bytes = bytes_of(reach.size);
    if bytes >= W {
        return true;
    }
    let first = (reach.address % W as u64) as usize;
    first < P * part + P && P * part < first + bytes
}

/// The bits of a mask in a part.
#[inline(always)]
fn mask_of<const P: usize>(mask: u64, part: usize) -> u16
    requires width { P ≤ 16 }
    requires part { P * part < 64 }
    ensures { result ≡ mask / 2 ^ (P * part) % 2 ^ P }
{
    let bits = mask >> (P * part);
    (bits % (1 << P)) as u16
}

/// Whether a part is one of the message's.
fn has_part<const W: usize, const P: usize>(reach: Reach, part: usize) -> bool
    requires width { IsWideWidth W }
    requires parts { P ≡ part_width W }
    ensures { result ≡ is_one_of part (parts_of W reach.size reach.address) }
{
    if part >= W / P {
        return false;
    }
    reaches::<W, P>(reach, part)
}

/// Whether the mask has no lane in a part, or the part is one of the message's.
fn is_clear<const W: usize, const P: usize>(reach: Reach, part: usize) -> bool
    requires width { IsWideWidth W }
    requires parts { P ≡ part_width W }
    requires part { P * part < 64 }
    ensures { result ≡ (is_one_of part (parts_of W reach.size reach.address)
        || (reach.mask / 2 ^ (P * part) % 2 ^ P == 0)) }
{
    has_part::<W, P>(reach, part) | (mask_of::<P>(reach.mask, part) == 0)
}

/// Whether a beat has one part, and the mask has no lane beyond it.
#[inline(always)]
fn is_within<const W: usize, const P: usize>(mask: u64) -> bool
    requires width { P ≤ 16 }
    ensures { OnTrue result ((W ≤ 16) × (mask / 2 ^ P ≡ 0)) }
{
    W <= 16 && mask >> P == 0
}

/// Whether the mask has a lane in no part of the message.
#[inline(always)]
fn has_stray<const W: usize, const P: usize>(reach: Reach) -> bool
    requires width { IsWideWidth W }
    requires parts { P ≡ part_width W }
    ensures { result ≡ has_stray W (parts_of W reach.size reach.address) reach.mask }
{
    if is_within::<W, P>(reach.mask) {
        return false;
    }
    let mut clear = true;
    for part in 0..64 / P {
        clear = is_clear::<W, P>(reach, part) & clear;
    }
    !clear
}

/// These lanes that a part has in the mask too, or all of them if the part isn't one of the message's.
fn common_with<const W: usize, const P: usize>(reach: Reach, part: usize, common: u16) -> u16
    requires width { IsWideWidth W }
    requires parts { P ≡ part_width W }
    requires part { part < W / P }
    ensures { result ≡ (if reaches_part W reach.size reach.address part
        then bit_and (part_mask W reach.mask part) common else common) }
{
    if reaches::<W, P>(reach, part) {
        mask_of::<P>(reach.mask, part) & common
    } else {
        common
    }
}

/// The lanes that each part of the message has in the mask.
fn common_mask<const W: usize, const P: usize>(reach: Reach) -> u16
    requires width { IsWideWidth W }
    requires parts { P ≡ part_width W }
    ensures { result ≡ common_mask W (parts_of W reach.size reach.address) reach.mask }
{
    let count = W / P;
    let mut common = u16::MAX >> (16 - P);
    for i in 0..count {
        common = common_with::<W, P>(reach, count - 1 - i, common);
    }
    common
}

/// The mask of a beat without data.
fn lone_mask<const W: usize, const P: usize>(reach: Reach, stray: bool) -> u16
    requires width { IsWideWidth W }
    requires parts { P ≡ part_width W }
    ensures { result ≡ lone_mask W stray (parts_of W reach.size reach.address) reach.mask }
{
    if stray { 0 } else { common_mask::<W, P>(reach) }
}

/// The mask of a part.
#[inline(always)]
fn shown_mask<const W: usize, const P: usize>(reach: Reach, stray: bool, part: usize) -> u16
    requires width { IsWideWidth W }
    requires parts { P ≡ part_width W }
    requires part { P * part < 64 }
    ensures { result ≡ shown_mask stray W reach.mask part }
{
    if stray {
        0
    } else {
        mask_of::<P>(reach.mask, part)
    }
}

/// The lanes of a part.
#[inline(always)]
fn lanes_of<const W: usize, const P: usize>(lanes: &Option<[u8; W]>, part: usize) -> Option<[u8; P]>
    requires parts { P ≡ part_width W }
    requires part { P * part + P ≤ W }
    ensures value { result ≡ part_lanes W part lanes.now }
    ensures some { is_some result ≡ is_some lanes.now }
{
    match lanes {
        None => None,
        Some(bytes) => {
            let mut few = [0u8; P];
            let bytes = &bytes[..];
            few.copy_from_slice(&bytes[P * part..P * part + P]);
            Some(few)
        }
    }
}

/// The opcode of a part of a beat of channel A.
#[inline(always)]
fn shown_opcode(stray: bool, opcode: OpA) -> OpA
    ensures value { result ≡ shown_opcode stray opcode }
    ensures carries { a_carries_data result ≡ a_carries_data opcode }
{
    if stray && opcode == OpA::PutPartialData {
        OpA::PutFullData
    } else {
        opcode
    }
}

/// One part of a beat.
#[inline(always)]
fn piece<const W: usize, const P: usize>(
    beat: &WideBeat<W>,
    named: Named,
    stray: bool,
    mask: u16,
    part: usize,
) -> Beat<P>
    requires parts { P ≡ part_width W }
    requires part { P * part + P ≤ W }
    ensures { result ≡ piece_of beat.now named stray mask part }
{
    match beat {
        WideBeat::A(x) => Beat::A(BeatA {
            opcode: shown_opcode(stray, x.opcode),
            param: x.param,
            size: x.size,
            source: named.source,
            address: named.address,
            mask,
            lanes: lanes_of(&x.lanes, part),
            corrupt: x.corrupt,
        }),
        WideBeat::B(x) => Beat::B(BeatB {
            opcode: x.opcode,
            param: x.param,
            size: x.size,
            source: named.source,
            address: named.address,
            mask,
            lanes: lanes_of(&x.lanes, part),
            corrupt: x.corrupt,
        }),
        WideBeat::C(x) => Beat::C(BeatC {
            opcode: x.opcode,
            param: x.param,
            size: x.size,
            source: named.source,
            address: named.address,
            lanes: lanes_of(&x.lanes, part),
            corrupt: x.corrupt,
        }),
        WideBeat::D(x) => Beat::D(BeatD {
            opcode: x.opcode,
            param: x.param,
            size: x.size,
            source: named.source,
            sink: named.sink,
            denied: x.denied,
            lanes: lanes_of(&x.lanes, part),
            corrupt: x.corrupt,
        }),
        WideBeat::E(_) => Beat::E(BeatE { sink: named.sink }),
    }
}

/// The message of a beat.
#[inline(always)]
fn reach_of<const W: usize>(beat: &WideBeat<W>, asked: u64) -> Reach
    ensures size { result.size ≡ size_in beat.now }
    ensures address { result.address ≡ reached_at beat.now asked }
    ensures mask { result.mask ≡ mask_in beat.now }
{
    let (size, address, mask) = match beat {
        WideBeat::A(x) => (x.size, x.address, x.mask),
        WideBeat::B(x) => (x.size, x.address, x.mask),
        WideBeat::C(x) => (x.size, x.address, 0),
        WideBeat::D(x) => (x.size, asked, 0),
        WideBeat::E(_) => (0, 0, 0),
    };
    Reach {
        size,
        address,
        mask,
    }
}

/// Whether a beat carries data.
fn carries<const W: usize>(beat: &WideBeat<W>) -> bool
    ensures { result ≡ carries_of beat.now }
{
    match beat {
        WideBeat::A(x) => x.opcode.carries_data(),
        WideBeat::B(x) => x.opcode.carries_data(),
        WideBeat::C(x) => x.opcode.carries_data(),
        WideBeat::D(x) => x.opcode.carries_data(),
        WideBeat::E(_) => false,
    }
}

/// The beats that a wide beat becomes, from the next one on.
#[derive(Clone, Copy)]
pub struct Parts {
    named: Named,
    stray: bool,
    next: usize,
}

impl Parts {
    /// All parts of a beat whose names have numbers.
    #[inline(always)]
    pub(crate) fn new<const W: usize, const P: usize>(beat: &WideBeat<W>, named: Named) -> Self
        requires width { IsWideWidth W }
        requires parts { P ≡ part_width W }
        ensures { (p : ℕ) → left_of {p = p} beat.now result ≡ pieces_of beat.now named }
    {
        Parts {
            named,
            stray: has_stray::<W, P>(reach_of(beat, named.asked)),
            next: 0,
        }
    }

    /// The part of a beat of at most 16 bytes, its only one.
    #[inline(always)]
    fn only<const W: usize, const P: usize>(&mut self, beat: &WideBeat<W>) -> Option<Beat<P>>
        requires width { IsWideWidth W }
        requires parts { P ≡ part_width W }
        requires few { W ≤ 16 }
        ensures { left_of beat.now self.old ≡ in_front result (left_of beat.now self.new) }
    {
        if self.next > 0 {
            return None;
        }
        self.next = 1;
        let mask = shown_mask::<W, P>(reach_of(beat, 0), self.stray, 0);
        Some(piece(beat, self.named, self.stray, mask, 0))
    }

    /// The part of a beat without data.
    fn alone<const W: usize, const P: usize>(&mut self, beat: &WideBeat<W>) -> Option<Beat<P>>
        requires width { IsWideWidth W }
        requires parts { P ≡ part_width W }
        requires alone { carries_of beat.now ≡ false }
        ensures { left_of beat.now self.old ≡ in_front result (left_of beat.now self.new) }
    {
        if self.next > 0 {
            return None;
        }
        self.next = 1;
        let mask = lone_mask::<W, P>(reach_of(beat, self.named.asked), self.stray);
        Some(piece(beat, self.named, self.stray, mask, 0))
    }

    /// The next part of the beat, which must be the one that these are parts of. `P` is the smaller of 16 and `W`.
    #[inline(always)]
    pub fn next<const W: usize, const P: usize>(&mut self, beat: &WideBeat<W>) -> Option<Beat<P>>
        requires width { IsWideWidth W }
        requires parts { P ≡ part_width W }
        ensures { left_of beat.now self.old ≡ in_front result (left_of beat.now self.new) }
    {
        if W <= 16 {
            return self.only(beat);
        }
        if !carries(beat) {
            return self.alone(beat);
        }
        let reach = reach_of(beat, self.named.asked);
        for part in self.next..W / P {
            if reaches::<W, P>(reach, part) {
                self.next = part + 1;
                let mask = shown_mask::<W, P>(reach, self.stray, part);
                return Some(piece(beat, self.named, self.stray, mask, part));
            }
        }
        self.next = W / P;
        None
    }
}
