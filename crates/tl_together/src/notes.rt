//! The notes of a judge about a beat before it takes it.

ghost use Rattle.std.specs.Prelude.{ℕ, List, Some, None, OnOk, OnErr, length, nat_lt, if◌then◌else◌, ◌&&◌, ◌==◌, ◌≡◌};
ghost use Rattle.std.specs.Option.{option_or};
ghost use Rattle.tl_params.specs.declared.level.Level.{Level};
ghost use Rattle.tl_params.specs.declared.liberties.Liberties.{Liberties};
ghost use Rattle.tl_rules.specs.statement.Conformance.{Trace};
ghost use Rattle.tl_together.specs.code.Following.{Follows};
ghost use Rattle.tl_together.specs.code.Windows.{asked_in, HasNoted, IsFreeFor, NotesRequest, NotesShown, NotesWindow};

use crate::free::freedom_of;
use crate::windows::Windows;
use std::alloc::AllocError;
use tl_beat::beat::{Beat, Link};
use tl_memory::free::Freedom;
use tl_monitor::byte_table::ByteTable;
use tl_monitor::monitor::Monitor;

/// Notes the moment at which the request with a source is complete, if there is such a link.
fn note_asked(asked: &mut Vec<ByteTable<u64>>, link: usize, source: u8, moment: u64)
    ensures noted { (n s : ℕ) → asked_in asked.new.items n s ≡
        (if nat_lt link (length asked.old.items) && ((n == link) && (s == source)) then Some moment else asked_in
        asked.old.items n s) }
    ensures length { length asked.new.items ≡ length asked.old.items }
{
    if link < asked.len() {
        asked[link].set(source, Some(moment));
    }
}

/// Notes the moment at which a request is complete, if this beat may complete it. All that is known of the beats so far
/// stays true.
pub fn note_request<const W: usize>(
    asked: &mut Vec<ByteTable<u64>>,
    monitor: &Monitor<W>,
    link: Link,
    beat: &Beat<W>,
    next: u64,
)
    ensures { NotesRequest monitor.now asked.old.items asked.new.items link beat.now next }
{
    if let Beat::A(x) = beat {
        if monitor.request(link, x.source).is_none() {
            note_asked(asked, usize::from(link.0), x.source, next);
        }
    }
}

/// Whether a block is free for reading and for writing. It is looked up if the beat may show bytes, and otherwise it is
/// `free`.
fn free_before<const W: usize>(
    monitor: &Monitor<W>,
    links: u8,
    block: u32,
    shown: Option<u32>,
    free: Freedom,
) -> Freedom
    ensures { (levels : List Level) (l : Liberties) (t : Trace W) → Follows monitor.now levels l t →
        links ≡ length levels → (shown ≡ None → IsFreeFor free (length levels) block t) →
        IsFreeFor result (length levels) block t }
{
    match shown {
        Some(_) => freedom_of(monitor, links, block, false),
        None => free,
    }
}

/// Notes whether a block is free: the one whose bytes the beat may show, or else the one whose permission the beat may
/// change. All that is known of the beats so far stays true. The error means that there is no memory left; then nothing
/// changes.
#[inline(always)]
pub fn note_window<const W: usize>(
    windows: &mut Windows,
    monitor: &Monitor<W>,
    links: u8,
    moment: u64,
    shown: Option<u32>,
    held: Option<u32>,
    free: Freedom,
) -> Result<(), AllocError>
    ensures noted { OnOk result (NotesWindow monitor.now links moment held free (option_or shown held)
        windows.old windows.new) }
    ensures entered { OnOk result (HasNoted (option_or shown held) windows.new) }
    ensures unchanged { OnErr result (windows.new ≡ windows.old) }
{
    let Some(block) = shown.or(held) else {
        return Ok(());
    };
    let free = free_before(monitor, links, block, shown, free);
    windows.note(block, free, moment)
}

/// Notes that a beat that was taken shows the bytes of this block, if there is one and the beat completes its message.
#[inline(always)]
pub fn note_shown<const W: usize>(
    windows: &mut Windows,
    monitor: &Monitor<W>,
    shown: Option<u32>,
    link: Link,
    beat: &Beat<W>,
    moment: u64,
)
    ensures { NotesShown monitor.now shown link beat.now moment windows.old windows.new }
{
    let Some(block) = shown else {
        return;
    };
    if monitor.begins(link, beat) {
        windows.show(block, moment);
    }
}
