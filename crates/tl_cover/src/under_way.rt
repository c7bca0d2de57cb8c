//! The messages of a link that have begun and aren't complete.

ghost use Rattle.std.specs.Prelude.{◌≡◌};
ghost use Rattle.tl_cover.specs.code.Past.{is_full, left, no_messages, under_way_next};
ghost use Rattle.tl_cover.specs.statement.Scene.{is_of_grant};

use tl_beat::beat::Beat;
use tl_beat::control::Control;
use tl_rules::kind::is_grant;

/// The control fields of the newest beat of a message that isn't complete, on each channel whose messages may have
/// several beats.
#[derive(Clone, Copy)]
pub struct UnderWay {
    pub a: Option<Control>,
    pub c: Option<Control>,
    pub d: Option<Control>,
}

/// The control fields of the beat, unless it completes its message.
fn left<const W: usize>(last: bool, beat: &Beat<W>) -> Option<Control>
    ensures { result ≡ left last beat.now }
{
    if last {
        return None;
    }
    Some(beat.control())
}

/// Whether the control fields are those of a Grant.
pub fn is_of_grant(control: Option<Control>) -> bool
    ensures { result ≡ is_of_grant control }
{
    match control {
        Some(Control::D(y)) => is_grant(y.opcode),
        _ => false,
    }
}

impl UnderWay {
    /// No message is incomplete.
    pub fn none() -> UnderWay
        ensures { result ≡ no_messages }
    {
        UnderWay {
            a: None,
            c: None,
            d: None,
        }
    }

    /// Takes one more beat; `last` says that it completes its message.
    pub fn with<const W: usize>(self, last: bool, beat: &Beat<W>) -> UnderWay
        ensures { result ≡ under_way_next last beat.now self }
    {
        let left = left(last, beat);
        match beat {
            Beat::A(_) => UnderWay {
                a: left,
                c: self.c,
                d: self.d,
            },
            Beat::C(_) => UnderWay {
                a: self.a,
                c: left,
                d: self.d,
            },
            Beat::D(_) => UnderWay {
                a: self.a,
                c: self.c,
                d: left,
            },
            _ => self,
        }
    }

    /// Whether a message is incomplete on each of these channels.
    pub fn is_full(&self) -> bool
        ensures { result ≡ is_full self.now }
    {
        self.a.is_some() && self.c.is_some() && self.d.is_some()
    }
}
