//! Whether a cache's copy of a block is coming or leaving, by the unfinished messages of its link.

ghost use Rattle.std.specs.Prelude.{ℕ, false, ◌≡◌, ◌<◌, ◌+◌, ◌*◌, is_some, slice_index_or};
ghost use Rattle.tl_beat.specs.declared.channel.Channel.TheVariants as channel;
ghost use Rattle.tl_beat.specs.statement.Width.{IsWidth};
ghost use Rattle.tl_burst.specs.statement.Messages.{History, unfinished};
ghost use Rattle.tl_memory.specs.statement.Links.{KnowsMessages};
ghost use Rattle.tl_monitor.specs.statement.Reporting.{report_of};
ghost use Rattle.tl_commits.specs.code.Giving.{is_given};
ghost use Rattle.tl_commits.specs.statement.Copies;

use tl_beat::beat::Link;
use tl_beat::control::ControlC;
use tl_memory::link::LinkMessages;
use tl_rules::key::block_at;
use tl_rules::kind::is_release;

/// Whether all stores of a link are in the trace.
pub(crate) fn is_complete(complete: &Vec<bool>, link: Link) -> bool
    ensures { result ≡ slice_index_or complete.now.items link.0 false }
{
    match complete.get(usize::from(link.0)) {
        Some(complete) => *complete,
        None => false,
    }
}

/// Whether the unfinished Grant, if there is one, is of this block.
pub(crate) fn is_filling(messages: &LinkMessages, block: u32) -> bool
    ensures { (w : ℕ) (t : History w) → KnowsMessages messages.now t → result ≡ Copies.is_filling block t }
{
    match messages.granting {
        Some(granting) => granting.block == block,
        None => false,
    }
}

/// Whether the unfinished Grant has brought the byte at a place of a block.
pub(crate) fn has_brought_at<const W: usize>(
    messages: &LinkMessages,
    block: u32,
    place: usize,
) -> bool
    requires { IsWidth W }
    ensures { (t : History W) → KnowsMessages messages.now t → place < 64 →
        result ≡ is_some (Copies.brought (64 * block + place) t) }
{
    let beats = messages.d.bytes.count();
    is_filling(messages, block) && place / W < beats
}

/// Whether the unfinished Grant has brought the byte at an address.
pub(crate) fn has_brought<const W: usize>(messages: &LinkMessages, address: u32) -> bool
    requires { IsWidth W }
    ensures { (t : History W) → KnowsMessages messages.now t →
        result ≡ is_some (Copies.brought address t) }
{
    has_brought_at::<W>(messages, block_at(address), (address % 64) as usize)
}

/// Whether a message with these control fields is a report of this block that has no answer yet. `released` says
/// whether it is a Release that was answered.
fn is_given(x: &ControlC, released: bool, block: u32) -> bool
    ensures { result ≡ is_given x.now released block }
{
    block_at(x.address) == block && (!is_release(x.opcode) || !released)
}

/// Whether the unfinished message on channel C, which has these control fields if there is one, is a report of this
/// block that has no answer yet.
pub(crate) fn is_giving(messages: &LinkMessages, report: Option<ControlC>, block: u32) -> bool
    ensures { (w : ℕ) (t : History w) → KnowsMessages messages.now t →
        report ≡ report_of (unfinished channel.C t) → result ≡ Copies.is_giving block t }
{
    match report {
        Some(x) => is_given(&x, messages.is_released(), block),
        None => false,
    }
}
