//! A wide beat in C: the fields of all channels, of up to 64 bytes.

ghost use Rattle.std.specs.Prelude.{◌≡◌, ◌<◌, ◌^◌, Some, length, nat_lt};
ghost use Rattle.tl_wide.specs.statement.Width.{IsWideWidth};
ghost use Rattle.tl_pictures.specs.statement.WidePicture.{a_beat, b_beat, c_beat, d_beat, a_fields, b_fields};
ghost use Rattle.tl_pictures.specs.statement.WidePicture.{c_fields, d_fields, e_beat, fits, ranges_of, shown_wide};

use crate::picture::{lanes_fit, lanes_of};
use tl_beat::channel::Channel;
use tl_beat::opcode::{OpA, OpB, OpC, OpD};
use tl_wide::beat::{WideBeat, WideBeatA, WideBeatB, WideBeatC, WideBeatD, WideBeatE};

/// The fields of a wide beat. The channel is 0 for A to 4 for E, byte `i` of the data is lane `i`, and `denied` and
/// `corrupt` are 0 or 1. A field that the channel doesn't have is 0. So are the data if the opcode carries none, and
/// the bytes and the bits of the mask after the width.
#[repr(C)]
#[derive(Clone, Copy, Debug, PartialEq, Eq)]
pub struct WidePicture {
    pub lanes: [u8; 64],
    pub address: u64,
    pub mask: u64,
    pub source: u16,
    pub sink: u16,
    pub channel: u8,
    pub opcode: u8,
    pub param: u8,
    pub size: u8,
    pub denied: u8,
    pub corrupt: u8,
}

/// The fields of a channel: the number of values of the small ones, and which of the others it has.
#[derive(Clone, Copy)]
pub(crate) struct Ranges {
    pub(crate) params: u8,
    pub(crate) sizes: u8,
    pub(crate) denials: u8,
    pub(crate) corruptions: u8,
    pub(crate) has_address: bool,
    pub(crate) has_mask: bool,
    pub(crate) has_source: bool,
    pub(crate) has_sink: bool,
}

/// The fields of a channel.
fn ranges_of(channel: Channel) -> Ranges
    ensures { result ≡ ranges_of channel }
{
    match channel {
        Channel::A | Channel::B => Ranges {
            params: 8,
            sizes: 16,
            denials: 1,
            corruptions: 2,
            has_address: true,
            has_mask: true,
            has_source: true,
            has_sink: false,
        },
        Channel::C => Ranges {
            params: 8,
            sizes: 16,
            denials: 1,
            corruptions: 2,
            has_address: true,
            has_mask: false,
            has_source: true,
            has_sink: false,
        },
        Channel::D => Ranges {
            params: 4,
            sizes: 16,
            denials: 2,
            corruptions: 2,
            has_address: false,
            has_mask: false,
            has_source: true,
            has_sink: true,
        },
        Channel::E => Ranges {
            params: 1,
            sizes: 1,
            denials: 1,
            corruptions: 1,
            has_address: false,
            has_mask: false,
            has_source: false,
            has_sink: true,
        },
    }
}

/// Whether a mask has no lane after the width.
fn mask_fits<const W: usize>(mask: u64) -> bool
    requires { IsWideWidth W }
    ensures { result ≡ nat_lt mask (2 ^ W) }
{
    u128::from(mask) < 1 << W
}

/// Whether each field is within its range, and those that the channel doesn't have are 0.
fn fits<const W: usize>(ranges: Ranges, carries: bool, x: &WidePicture) -> bool
    requires { IsWideWidth W }
    ensures { result ≡ fits W ranges carries x.now }
{
    x.param < ranges.params
        && x.size < ranges.sizes
        && x.denied < ranges.denials
        && x.corrupt < ranges.corruptions
        && (ranges.has_address || x.address == 0)
        && (ranges.has_mask || x.mask == 0)
        && mask_fits::<W>(x.mask)
        && (ranges.has_source || x.source == 0)
        && (ranges.has_sink || x.sink == 0)
        && lanes_fit::<W>(carries, &x.lanes)
}

fn fields_a<const W: usize>(opcode: OpA, x: &WidePicture) -> WideBeatA<W>
    requires { IsWideWidth W }
    ensures { result ≡ a_fields W x.now opcode }
{
    WideBeatA {
        opcode,
        param: x.param,
        size: x.size,
        source: x.source,
        address: x.address,
        mask: x.mask,
        lanes: lanes_of(opcode.carries_data(), &x.lanes),
        corrupt: x.corrupt == 1,
    }
}

fn beat_a<const W: usize>(x: &WidePicture) -> Option<WideBeat<W>>
    requires { IsWideWidth W }
    ensures { result ≡ a_beat W x.now }
{
    let opcode = OpA::with_code(x.opcode)?;
    if fits::<W>(ranges_of(Channel::A), opcode.carries_data(), x) {
        Some(WideBeat::A(fields_a(opcode, x)))
    } else {
        None
    }
}

fn fields_b<const W: usize>(opcode: OpB, x: &WidePicture) -> WideBeatB<W>
    requires { IsWideWidth W }
    ensures { result ≡ b_fields W x.now opcode }
{
    WideBeatB {
        opcode,
        param: x.param,
        size: x.size,
        source: x.source,
        address: x.address,
        mask: x.mask,
        lanes: lanes_of(opcode.carries_data(), &x.lanes),
        corrupt: x.corrupt == 1,
    }
}

fn beat_b<const W: usize>(x: &WidePicture) -> Option<WideBeat<W>>
    requires { IsWideWidth W }
    ensures { result ≡ b_beat W x.now }
{
    let opcode = OpB::with_code(x.opcode)?;
    if fits::<W>(ranges_of(Channel::B), opcode.carries_data(), x) {
        Some(WideBeat::B(fields_b(opcode, x)))
    } else {
        None
    }
}

fn fields_c<const W: usize>(opcode: OpC, x: &WidePicture) -> WideBeatC<W>
    requires { IsWideWidth W }
    ensures { result ≡ c_fields W x.now opcode }
{
    WideBeatC {
        opcode,
        param: x.param,
        size: x.size,
        source: x.source,
        address: x.address,
        lanes: lanes_of(opcode.carries_data(), &x.lanes),
        corrupt: x.corrupt == 1,
    }
}

fn beat_c<const W: usize>(x: &WidePicture) -> Option<WideBeat<W>>
    requires { IsWideWidth W }
    ensures { result ≡ c_beat W x.now }
{
    let opcode = OpC::with_code(x.opcode)?;
    if fits::<W>(ranges_of(Channel::C), opcode.carries_data(), x) {
        Some(WideBeat::C(fields_c(opcode, x)))
    } else {
        None
    }
}

fn fields_d<const W: usize>(opcode: OpD, x: &WidePicture) -> WideBeatD<W>
    requires { IsWideWidth W }
    ensures { result ≡ d_fields W x.now opcode }
{
    WideBeatD {
        opcode,
        param: x.param,
        size: x.size,
        source: x.source,
        sink: x.sink,
        denied: x.denied == 1,
        lanes: lanes_of(opcode.carries_data(), &x.lanes),
        corrupt: x.corrupt == 1,
    }
}

fn beat_d<const W: usize>(x: &WidePicture) -> Option<WideBeat<W>>
    requires { IsWideWidth W }
    ensures { result ≡ d_beat W x.now }
{
    let opcode = OpD::with_code(x.opcode)?;
    if fits::<W>(ranges_of(Channel::D), opcode.carries_data(), x) {
        Some(WideBeat::D(fields_d(opcode, x)))
    } else {
        None
    }
}

fn beat_e<const W: usize>(x: &WidePicture) -> Option<WideBeat<W>>
    requires { IsWideWidth W }
    ensures { result ≡ e_beat W x.now }
{
    if x.opcode == 0 && fits::<W>(ranges_of(Channel::E), false, x) {
        Some(WideBeat::E(WideBeatE { sink: x.sink }))
    } else {
        None
    }
}

impl WidePicture {
    /// The wide beat of `W` bytes with these fields, if there is one.
    pub fn beat<const W: usize>(&self) -> Option<WideBeat<W>>
        requires { IsWideWidth W }
        ensures { result ≡ shown_wide W self.now }
    {
        match self.channel {
            0 => beat_a(self),
            1 => beat_b(self),
            2 => beat_c(self),
            3 => beat_d(self),
            4 => beat_e(self),
            _ => None,
        }
    }
}
