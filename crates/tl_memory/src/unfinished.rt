//! The unfinished messages of a link after a beat.

ghost use Rattle.std.specs.Prelude.{◌≡◌, ◌&&◌, if◌then◌else◌};
ghost use Rattle.tl_rules.specs.statement.History.{is_release_ack};
ghost use Rattle.tl_memory.specs.code.Early as early;

use crate::early::{Asking, Doubt, Granting, Releasing};
use tl_beat::beat::{BeatA, BeatC, BeatD};
use tl_rules::key::block_at;
use tl_rules::kind::{is_grant, is_release, is_release_ack};

/// The unfinished request after a beat of channel A, which completes it or not.
pub(crate) fn asking_after<const W: usize>(x: &BeatA<W>, completes: bool) -> Option<Asking>
    ensures { result ≡ early.asking_after x.now completes }
{
    if completes {
        return None;
    }
    Some(Asking {
        source: x.source,
        address: x.address,
        size: x.size,
    })
}

/// The unfinished Release after a beat of channel C, which completes it or not.
pub(crate) fn releasing_after<const W: usize>(
    before: Option<Releasing>,
    x: &BeatC<W>,
    completes: bool,
) -> Option<Releasing>
    ensures { result ≡ early.releasing_after before x.now completes }
{
    if completes || !is_release(x.opcode) {
        return None;
    }
    match before {
        Some(releasing) => Some(releasing),
        None => Some(Releasing {
            source: x.source,
            block: block_at(x.address),
            answered: false,
        }),
    }
}

/// The unfinished Release after a ReleaseAck with this source.
pub(crate) fn released(before: Option<Releasing>, source: u8) -> Option<Releasing>
    ensures { result ≡ early.released before source }
{
    match before {
        Some(releasing) if releasing.source == source => Some(Releasing {
            answered: true,
            ..releasing
        }),
        _ => before,
    }
}

/// The unfinished Release after a beat of channel D, which completes its message or not.
pub(crate) fn releasing_answered<const W: usize>(
    before: Option<Releasing>,
    x: &BeatD<W>,
    completes: bool,
) -> Option<Releasing>
    ensures { result
        ≡ (if completes && is_release_ack x.now.opcode then early.released before x.now.source else before) }
{
    if completes && is_release_ack(x.opcode) {
        released(before, x.source)
    } else {
        before
    }
}

/// The unfinished Grant after a beat of channel D, which completes it or not. `block` is the block that the beat
/// concerns.
pub(crate) fn granting_after<const W: usize>(
    before: Option<Granting>,
    x: &BeatD<W>,
    block: Option<u32>,
    completes: bool,
) -> Option<Granting>
    ensures { result ≡ early.granting_after before x.now block completes }
{
    if completes || !is_grant(x.opcode) {
        return None;
    }
    match before {
        Some(granting) => Some(granting),
        None => {
            let block = block?;
            Some(Granting {
                sink: x.sink,
                block,
                doubt: Doubt::Unacknowledged,
            })
        }
    }
}

/// The unfinished Grant after a GrantAck with this sink.
pub(crate) fn acknowledged(before: Option<Granting>, sink: u8) -> Option<Granting>
    ensures { result ≡ early.acknowledged before sink }
{
    match before {
        Some(granting) if granting.sink == sink => Some(Granting {
            doubt: Doubt::Acknowledged,
            ..granting
        }),
        _ => before,
    }
}

/// The unfinished Grant after a report of this block is complete.
pub(crate) fn overtaken(before: Option<Granting>, block: u32) -> Option<Granting>
    ensures { result ≡ early.overtaken before block }
{
    match before {
        Some(granting) if granting.block == block && granting.doubt == Doubt::Acknowledged => {
            Some(Granting {
                doubt: Doubt::Overtaken,
                ..granting
            })
        }
        _ => before,
    }
}
