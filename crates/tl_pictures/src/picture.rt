//! A beat in C: the fields of all channels.

ghost use Rattle.std.specs.Prelude.{◌≡◌, ◌≤◌, Some, if◌then◌else◌, length};
ghost use Rattle.tl_beat.specs.statement.Width.{IsWidth};
ghost use Rattle.tl_pictures.specs.statement.Picture.{a_beat, b_beat, c_beat, d_beat, a_fields, b_fields};
ghost use Rattle.tl_pictures.specs.statement.Picture.{c_fields, d_fields, shown, lanes_in, all_zero};
ghost use Rattle.tl_pictures.specs.statement.Picture.{is_zero_from, a_fits, c_fits, d_fits, e_fits};

use tl_beat::beat::{Beat, BeatA, BeatB, BeatC, BeatD, BeatE};
use tl_beat::opcode::{OpA, OpB, OpC, OpD};

/// The fields of a beat. The channel is 0 for A to 4 for E, byte `i` of the data is lane `i`, and `denied` and
/// `corrupt` are 0 or 1. A field that the channel doesn't have is 0. So are the data if the opcode carries none, and
/// the bytes after the width.
#[repr(C)]
#[derive(Clone, Copy, Debug, PartialEq, Eq)]
pub struct Picture {
    pub lanes: [u8; 16],
    pub address: u32,
    pub mask: u16,
    pub channel: u8,
    pub opcode: u8,
    pub param: u8,
    pub size: u8,
    pub source: u8,
    pub sink: u8,
    pub denied: u8,
    pub corrupt: u8,
}

/// Whether all bytes are 0. It looks at each of them, so that the compiler can look at many at once.
fn are_zero(bytes: &[u8]) -> bool
    ensures { result ≡ all_zero bytes.now }
{
    let mut zero = true;
    for byte in bytes {
        zero &= *byte == 0;
    }
    zero
}

fn zero_from(bytes: &[u8], from: usize) -> bool
    requires { from ≤ length bytes.now }
    ensures { result ≡ is_zero_from from bytes.now }
{
    are_zero(&bytes[from..])
}

/// The lanes of a beat of `W` bytes, if it carries data.
pub(crate) fn lanes_of<const W: usize>(carries: bool, bytes: &[u8]) -> Option<[u8; W]>
    requires { W ≤ length bytes.now }
    ensures { result ≡ lanes_in carries W bytes.now }
{
    if !carries {
        return None;
    }
    let mut lanes = [0; W];
    lanes.copy_from_slice(&bytes[0..W]);
    Some(lanes)
}

/// Whether the bytes that carry no data are 0.
pub(crate) fn lanes_fit<const W: usize>(carries: bool, bytes: &[u8]) -> bool
    requires { W ≤ length bytes.now }
    ensures { result ≡ is_zero_from (if carries then W else 0) bytes.now }
{
    zero_from(bytes, if carries { W } else { 0 })
}

fn fit_a<const W: usize>(carries: bool, x: &Picture) -> bool
    requires { IsWidth W }
    ensures { result ≡ a_fits W carries x.now }
{
    x.param < 8
        && x.size < 16
        && u32::from(x.mask) < 1 << W
        && x.sink == 0
        && x.denied == 0
        && x.corrupt < 2
        && lanes_fit::<W>(carries, &x.lanes)
}

fn fit_c<const W: usize>(carries: bool, x: &Picture) -> bool
    requires { IsWidth W }
    ensures { result ≡ c_fits W carries x.now }
{
    x.param < 8
        && x.size < 16
        && x.mask == 0
        && x.sink == 0
        && x.denied == 0
        && x.corrupt < 2
        && lanes_fit::<W>(carries, &x.lanes)
}

fn fit_d<const W: usize>(carries: bool, x: &Picture) -> bool
    requires { IsWidth W }
    ensures { result ≡ d_fits W carries x.now }
{
    x.param < 4
        && x.size < 16
        && x.address == 0
        && x.mask == 0
        && x.denied < 2
        && x.corrupt < 2
        && lanes_fit::<W>(carries, &x.lanes)
}

fn fit_e(x: &Picture) -> bool
    ensures { result ≡ e_fits x.now }
{
    x.opcode == 0
        && x.param == 0
        && x.size == 0
        && x.source == 0
        && x.address == 0
        && x.mask == 0
        && x.denied == 0
        && x.corrupt == 0
        && zero_from(&x.lanes, 0)
}

fn fields_a<const W: usize>(opcode: OpA, x: &Picture) -> BeatA<W>
    requires { IsWidth W }
    ensures { result ≡ a_fields W x.now opcode }
{
    BeatA {
        opcode,
        param: x.param,
        size: x.size,
        source: x.source,
        address: x.address,
        mask: x.mask,
        lanes: lanes_of(opcode.carries_data(), &x.lanes),
        corrupt: x.corrupt == 1,
    }
}

fn beat_a<const W: usize>(opcode: OpA, x: &Picture) -> Option<Beat<W>>
    requires { IsWidth W }
    ensures { result ≡ a_beat W x.now (Some opcode) }
{
    if fit_a::<W>(opcode.carries_data(), x) {
        Some(Beat::A(fields_a(opcode, x)))
    } else {
        None
    }
}

fn fields_b<const W: usize>(opcode: OpB, x: &Picture) -> BeatB<W>
    requires { IsWidth W }
    ensures { result ≡ b_fields W x.now opcode }
{
    BeatB {
        opcode,
        param: x.param,
        size: x.size,
        source: x.source,
        address: x.address,
        mask: x.mask,
        lanes: lanes_of(opcode.carries_data(), &x.lanes),
        corrupt: x.corrupt == 1,
    }
}

fn beat_b<const W: usize>(opcode: OpB, x: &Picture) -> Option<Beat<W>>
    requires { IsWidth W }
    ensures { result ≡ b_beat W x.now (Some opcode) }
{
    if fit_a::<W>(opcode.carries_data(), x) {
        Some(Beat::B(fields_b(opcode, x)))
    } else {
        None
    }
}

fn fields_c<const W: usize>(opcode: OpC, x: &Picture) -> BeatC<W>
    requires { IsWidth W }
    ensures { result ≡ c_fields W x.now opcode }
{
    BeatC {
        opcode,
        param: x.param,
        size: x.size,
        source: x.source,
        address: x.address,
        lanes: lanes_of(opcode.carries_data(), &x.lanes),
        corrupt: x.corrupt == 1,
    }
}

fn beat_c<const W: usize>(opcode: OpC, x: &Picture) -> Option<Beat<W>>
    requires { IsWidth W }
    ensures { result ≡ c_beat W x.now (Some opcode) }
{
    if fit_c::<W>(opcode.carries_data(), x) {
        Some(Beat::C(fields_c(opcode, x)))
    } else {
        None
    }
}

fn fields_d<const W: usize>(opcode: OpD, x: &Picture) -> BeatD<W>
    requires { IsWidth W }
    ensures { result ≡ d_fields W x.now opcode }
{
    BeatD {
        opcode,
        param: x.param,
        size: x.size,
        source: x.source,
        sink: x.sink,
        denied: x.denied == 1,
        lanes: lanes_of(opcode.carries_data(), &x.lanes),
        corrupt: x.corrupt == 1,
    }
}

fn beat_d<const W: usize>(opcode: OpD, x: &Picture) -> Option<Beat<W>>
    requires { IsWidth W }
    ensures { result ≡ d_beat W x.now (Some opcode) }
{
    if fit_d::<W>(opcode.carries_data(), x) {
        Some(Beat::D(fields_d(opcode, x)))
    } else {
        None
    }
}

impl Picture {
    /// The beat of `W` bytes with these fields, if there is one.
    pub fn beat<const W: usize>(&self) -> Option<Beat<W>>
        requires { IsWidth W }
        ensures { result ≡ shown W self.now }
    {
        match self.channel {
            0 => match OpA::with_code(self.opcode) {
                None => None,
                Some(opcode) => beat_a(opcode, self),
            },
            1 => match OpB::with_code(self.opcode) {
                None => None,
                Some(opcode) => beat_b(opcode, self),
            },
            2 => match OpC::with_code(self.opcode) {
                None => None,
                Some(opcode) => beat_c(opcode, self),
            },
            3 => match OpD::with_code(self.opcode) {
                None => None,
                Some(opcode) => beat_d(opcode, self),
            },
            4 if fit_e(self) => Some(Beat::E(BeatE { sink: self.sink })),
            _ => None,
        }
    }
}
