//! A covering of links of any width, which counts their situations. Bad input changes nothing.

ghost use Rattle.std.specs.Prelude.{◌≡◌};
ghost use Rattle.tl_beat.specs.statement.Width.{IsWidth};
ghost use Rattle.tl_sessions.specs.statement.Covering.{BinOf, CountsOf, TallyOf, bin_tally_of, tally_of};

use tl_beat::beat::Link;
use tl_cover::covering::Covering;
use tl_cover::row::{LinkBin, Row};
use tl_pictures::answer::Answer;
use tl_pictures::codes::link_at;
use tl_pictures::picture::Picture;

/// A covering of links whose beats have 4, 8 or 16 bytes.
#[derive(Drop)]
pub enum AnyCovering {
    Four(Covering<4>),
    Eight(Covering<8>),
    Sixteen(Covering<16>),
}

/// The count of a situation, and the line of a trace in which it first came; 0 if it never came.
#[repr(C)]
#[derive(Clone, Copy, Debug, PartialEq, Eq)]
pub struct Tally {
    pub count: u64,
    pub line: u64,
}

impl Tally {
    fn of(row: &Row) -> Tally
        ensures { result ≡ tally_of row.now }
    {
        Tally {
            count: row.count,
            line: row.first.unwrap_or(0),
        }
    }
}

/// The count of a bin on a link, the line of a trace in which it first came, 0 if it never came, and 1 if the link can
/// have it by its level and its liberties, otherwise 0.
#[repr(C)]
#[derive(Clone, Copy, Debug, PartialEq, Eq)]
pub struct BinTally {
    pub count: u64,
    pub line: u64,
    pub possible: u8,
}

impl BinTally {
    fn of(bin: &LinkBin) -> BinTally
        ensures { result ≡ bin_tally_of bin.now }
    {
        BinTally {
            count: bin.row.count,
            line: bin.row.first.unwrap_or(0),
            possible: u8::from(bin.possible),
        }
    }
}

/// Judges a beat of a link, and counts the situations of the message that begins with it.
pub fn push<const W: usize>(covering: &mut Covering<W>, link: u8, picture: &Picture) -> Answer
    requires { IsWidth W }
    ensures { CountsOf covering.old covering.new link picture.now result }
{
    let Some(link) = link_at(link) else {
        return Answer::BAD;
    };
    let Some(beat) = picture.beat::<W>() else {
        return Answer::BAD;
    };
    Answer::of(covering.push(link, &beat))
}

/// The tally of the situation with this number.
pub fn tell<const W: usize>(covering: &Covering<W>, situation: u8, tally: &mut Tally) -> Answer
    ensures { TallyOf covering.now situation tally.old tally.new result }
{
    match covering.rows().get(usize::from(situation)) {
        None => Answer::BAD,
        Some(row) => {
            *tally = Tally::of(row);
            Answer::OK
        }
    }
}

/// The tally of the bin with this number on a link.
pub fn tell_bin<const W: usize>(
    covering: &Covering<W>,
    link: u8,
    bin: u8,
    tally: &mut BinTally,
) -> Answer
    requires { IsWidth W }
    ensures { BinOf covering.now link bin tally.old tally.new result }
{
    match covering.bin(Link(link), usize::from(bin)) {
        None => Answer::BAD,
        Some(bin) => {
            *tally = BinTally::of(&bin);
            Answer::OK
        }
    }
}
