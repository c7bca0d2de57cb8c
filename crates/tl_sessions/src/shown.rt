//! The fields that C pushes to a judge of wide beats: those of a beat, or of a commit.

ghost use Rattle.std.specs.Prelude.{◌≡◌, IfSome};
ghost use Rattle.tl_wide.specs.statement.Width.{IsWideWidth};
ghost use Rattle.tl_sessions.specs.code.WideJudging.{IsWideEvent, is_same, is_same_beat, is_same_commit};
ghost use Rattle.tl_sessions.specs.statement.Wide.{event_shown};

use tl_pictures::commit::CommitPicture;
use tl_pictures::wide::WidePicture;
use tl_wide_events::commit::WideEvent;

/// The fields of a wide beat, or of a commit.
#[derive(Clone, Copy)]
pub enum Shown {
    Beat(WidePicture),
    Commit(CommitPicture),
}

/// Whether two pictures of beats have the same fields.
fn is_same_beat(a: &WidePicture, b: &WidePicture) -> bool
    ensures { result ≡ is_same_beat a.now b.now }
{
    a.lanes == b.lanes
        && a.address == b.address
        && a.mask == b.mask
        && a.source == b.source
        && a.sink == b.sink
        && a.channel == b.channel
        && a.opcode == b.opcode
        && a.param == b.param
        && a.size == b.size
        && a.denied == b.denied
        && a.corrupt == b.corrupt
}

/// Whether two pictures of commits have the same fields.
fn is_same_commit(a: &CommitPicture, b: &CommitPicture) -> bool
    ensures { result ≡ is_same_commit a.now b.now }
{
    a.value == b.value && a.address == b.address && a.kind == b.kind && a.size == b.size
}

impl Shown {
    /// Whether both are beats, or both commits, and have the same fields.
    pub fn is_same(&self, other: &Shown) -> bool
        ensures { result ≡ is_same self.now other.now }
    {
        match (self, other) {
            (Shown::Beat(a), Shown::Beat(b)) => is_same_beat(a, b),
            (Shown::Commit(a), Shown::Commit(b)) => is_same_commit(a, b),
            _ => false,
        }
    }

    /// The event of links of `W` bytes with these fields, if there is one.
    pub fn event<const W: usize>(&self) -> Option<WideEvent<W>>
        requires { IsWideWidth W }
        ensures shown { result ≡ event_shown W self.now }
        ensures valid { IfSome result IsWideEvent }
    {
        match self {
            Shown::Beat(picture) => Some(WideEvent::Beat(picture.beat()?)),
            Shown::Commit(picture) => Some(WideEvent::Commit(picture.wide_commit()?)),
        }
    }
}
