//! An unfinished burst, as it is cited.

ghost use Rattle.std.specs.Prelude.{◌≡◌};
ghost use Rattle.tl_burst.specs.statement.Part.{is_small};
ghost use Rattle.tl_explain.specs.code.Recorded.{begun_by};

use crate::told::Told;
use crate::turns::Moment;
use tl_beat::beat::Beat;
use tl_beat::control::Control;
use tl_monitor::bursts::Unfinished;

/// An unfinished burst: its first beat, its newest, and the number of beats that have come.
#[derive(Clone, Copy)]
pub struct Begun {
    pub first: Told,
    pub newest: Control,
    pub came: u8,
}

/// Whether the size is one that a message may have.
pub fn is_small<const W: usize>(beat: &Beat<W>) -> bool
    ensures { result ≡ is_small beat.now }
{
    match beat {
        Beat::A(x) => x.size <= 6,
        Beat::B(x) => x.size <= 6,
        Beat::C(x) => x.size <= 6,
        Beat::D(x) => x.size <= 6,
        Beat::E(_) => true,
    }
}

/// The unfinished burst, if there is one.
pub fn begun_of(burst: &Option<Unfinished<Moment>>) -> Option<Begun>
    ensures { result ≡ begun_by burst.now }
{
    match burst {
        None => None,
        Some(burst) => Some(Begun {
            first: burst.beside.told,
            newest: burst.control,
            came: burst.beside.length.saturating_sub(burst.left),
        }),
    }
}
