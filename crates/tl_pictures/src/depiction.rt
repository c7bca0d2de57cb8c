//! The fields of beats in C.

ghost use Rattle.std.specs.Prelude.{◌≡◌};
ghost use Rattle.tl_beat.specs.statement.Width.{IsWidth};
ghost use Rattle.tl_pictures.specs.statement.Depicted.{lanes_shown, a_depicted, b_depicted, c_depicted, d_depicted};
ghost use Rattle.tl_pictures.specs.statement.Depicted.{depicted, ShowsBeat};

use crate::answer::Answer;
use crate::picture::Picture;
use tl_beat::beat::{Beat, BeatA, BeatB, BeatC, BeatD};

/// A picture in which each field is 0.
const BLANK: Picture = Picture {
    lanes: [0; 16],
    address: 0,
    mask: 0,
    channel: 0,
    opcode: 0,
    param: 0,
    size: 0,
    source: 0,
    sink: 0,
    denied: 0,
    corrupt: 0,
};

fn lanes_of<const W: usize>(lanes: &Option<[u8; W]>) -> [u8; 16]
    requires { IsWidth W }
    ensures { result ≡ lanes_shown W lanes.now }
{
    let mut all = [0; 16];
    if let Some(lanes) = lanes {
        all[0..W].copy_from_slice(lanes);
    }
    all
}

fn of_a<const W: usize>(x: &BeatA<W>) -> Picture
    requires { IsWidth W }
    ensures { result ≡ a_depicted x.now }
{
    Picture {
        lanes: lanes_of(&x.lanes),
        address: x.address,
        mask: x.mask,
        channel: 0,
        opcode: x.opcode.code(),
        param: x.param,
        size: x.size,
        source: x.source,
        sink: 0,
        denied: 0,
        corrupt: u8::from(x.corrupt),
    }
}

fn of_b<const W: usize>(x: &BeatB<W>) -> Picture
    requires { IsWidth W }
    ensures { result ≡ b_depicted x.now }
{
    Picture {
        lanes: lanes_of(&x.lanes),
        address: x.address,
        mask: x.mask,
        channel: 1,
        opcode: x.opcode.code(),
        param: x.param,
        size: x.size,
        source: x.source,
        sink: 0,
        denied: 0,
        corrupt: u8::from(x.corrupt),
    }
}

fn of_c<const W: usize>(x: &BeatC<W>) -> Picture
    requires { IsWidth W }
    ensures { result ≡ c_depicted x.now }
{
    Picture {
        lanes: lanes_of(&x.lanes),
        address: x.address,
        mask: 0,
        channel: 2,
        opcode: x.opcode.code(),
        param: x.param,
        size: x.size,
        source: x.source,
        sink: 0,
        denied: 0,
        corrupt: u8::from(x.corrupt),
    }
}

fn of_d<const W: usize>(x: &BeatD<W>) -> Picture
    requires { IsWidth W }
    ensures { result ≡ d_depicted x.now }
{
    Picture {
        lanes: lanes_of(&x.lanes),
        address: 0,
        mask: 0,
        channel: 3,
        opcode: x.opcode.code(),
        param: x.param,
        size: x.size,
        source: x.source,
        sink: x.sink,
        denied: u8::from(x.denied),
        corrupt: u8::from(x.corrupt),
    }
}

/// The fields of a beat.
pub fn picture_of<const W: usize>(beat: &Beat<W>) -> Picture
    requires { IsWidth W }
    ensures { result ≡ depicted beat.now }
{
    match beat {
        Beat::A(x) => of_a(x),
        Beat::B(x) => of_b(x),
        Beat::C(x) => of_c(x),
        Beat::D(x) => of_d(x),
        Beat::E(x) => Picture {
            channel: 4,
            sink: x.sink,
            ..BLANK
        },
    }
}

/// Writes a beat to the picture, if there is one.
pub fn show<const W: usize>(beat: Option<Beat<W>>, picture: &mut Picture) -> Answer
    requires { IsWidth W }
    ensures { ShowsBeat beat.entry picture.old picture.new result }
{
    match beat {
        None => Answer::NOTHING,
        Some(beat) => {
            *picture = picture_of(&beat);
            Answer::OK
        }
    }
}
