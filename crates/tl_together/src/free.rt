//! Whether a block is free for an access, by the permissions that links hold of it.

ghost use Rattle.std.specs.Prelude.{Bool, true, List, unwrap_or, Some, length, ◌∷◌, ◌==◌, ◌&&◌, ◌||◌, ◌<◌, ◌≡◌};
ghost use Rattle.tl_beat.specs.declared.beat.Beat.{Beat};
ghost use Rattle.tl_params.specs.declared.level.Level.{Level};
ghost use Rattle.tl_params.specs.declared.perm.Perm.TheVariants as perm;
ghost use Rattle.tl_params.specs.declared.liberties.Liberties.{Liberties};
ghost use Rattle.tl_rules.specs.statement.Conformance.{Trace, on_link};
ghost use Rattle.tl_rules.specs.statement.Windows as window;
ghost use Rattle.tl_bytes.specs.statement.Free.{all_liberties, is_free, may_hold};
ghost use Rattle.tl_monitor.specs.statement.Granting.{coming, granted_under};
ghost use Rattle.tl_params.specs.declared.perm.Perm.{Perm};
ghost use Rattle.tl_together.specs.code.Following.{Follows};
ghost use Rattle.tl_together.specs.code.Windows.{IsFreeFor, IsLeft, IsSaid};
ghost use Rattle.tl_together.specs.statement.Coherence;

use tl_beat::beat::Link;
use tl_memory::free::Freedom;
use tl_monitor::monitor::Monitor;
use tl_rules::perm::Perm;

/// Whether a link may hold the permission `given` of a block while another holds `held`.
pub fn leaves(given: Perm, held: Perm) -> bool
    ensures { result ≡ window.leaves given held }
{
    match given {
        Perm::Trunk => held == Perm::None,
        Perm::Branch => held != Perm::Trunk,
        Perm::None => true,
    }
}

/// Whether both are true.
fn both(one: bool, other: bool) -> bool
    ensures { result ≡ (one && other) }
{
    one && other
}

/// Whether a link is the other one, or holds a permission that doesn't conflict with the given one.
fn is_own_or_leaves(link: u8, other: u8, given: Perm, held: Perm) -> bool
    ensures { result ≡ ((other == link) || window.leaves given held) }
{
    other == link || leaves(given, held)
}

/// Whether none of the first `links` links holds a permission of the block that conflicts with the given one.
pub fn is_free<const W: usize>(monitor: &Monitor<W>, links: u8, given: Perm, block: u32) -> bool
    ensures { (levels : List Level) (l : Liberties) (t : Trace W) →
        Follows monitor.now levels l t → links ≡ length levels →
        result ≡ is_free links given block t }
{
    let mut free = true;
    for n in 0..links {
        let held = monitor.held_under(Link(n), block);
        free = both(free, leaves(given, held));
    }
    free
}

/// The permission that an unfinished Grant of a block gives on a link. None if none has begun.
fn coming<const W: usize>(monitor: &Monitor<W>, link: Link, block: u32) -> Perm
    ensures { (levels : List Level) (l : Liberties) (t : Trace W) → Follows monitor.now levels l t →
        link.0 < length levels → result ≡ unwrap_or (coming block (on_link link.0 t)) perm.None }
{
    monitor.coming(link, block).unwrap_or(Perm::None)
}

/// The permission that a link holds of a block, with a Grant counted from its first beat on. If the block is known to
/// be free for the given permission, it is only that of an unfinished Grant.
fn granted<const W: usize>(monitor: &Monitor<W>, link: Link, block: u32, free: bool) -> Perm
    ensures { (levels : List Level) (l : Liberties) (t : Trace W) (given : Perm) → Follows monitor.now levels l t →
        link.0 < length levels →
        (free ≡ true → window.leaves given (may_hold block (on_link link.0 t)) ≡ true) →
        window.leaves given result
        ≡ window.leaves given (granted_under all_liberties block (on_link link.0 t)) }
{
    if free {
        return coming(monitor, link, block);
    }
    monitor.granted_under(link, block)
}

/// Whether no link but this one holds a permission of the block that conflicts with the given one. A Grant counts as
/// held from its first beat on. `known_free` says that no link holds one by complete messages.
pub fn is_grantable<const W: usize>(
    monitor: &Monitor<W>,
    links: u8,
    link: u8,
    given: Perm,
    block: u32,
    known_free: bool,
) -> bool
    ensures { (levels : List Level) (l : Liberties) (t : Trace W) →
        Follows monitor.now levels l t → links ≡ length levels →
        (known_free ≡ true → is_free links given block t ≡ true) →
        result ≡ Coherence.is_grantable links link given block t }
{
    let mut free = true;
    for n in 0..links {
        let granted = granted(monitor, Link(n), block, known_free);
        free = both(free, is_own_or_leaves(n, link, given, granted));
    }
    free
}

/// Whether a block is free for reading and for writing, if it is so for all links but one, and that one holds this
/// permission. `shown` says whether its bytes are shown.
fn beside(free: Freedom, held: Perm, shown: bool) -> Freedom
    ensures reading { result.reading ≡ (free.reading && window.leaves perm.Branch held) }
    ensures writing { result.writing ≡ (free.writing && window.leaves perm.Trunk held) }
    ensures shown { result.shown ≡ shown }
{
    Freedom {
        reading: both(free.reading, leaves(Perm::Branch, held)),
        writing: both(free.writing, leaves(Perm::Trunk, held)),
        shown,
    }
}

/// Whether a block is free for reading and for writing, by the permissions of the first `links` links. `shown` says
/// whether its bytes are shown with the last beat.
pub fn freedom_of<const W: usize>(
    monitor: &Monitor<W>,
    links: u8,
    block: u32,
    shown: bool,
) -> Freedom
    ensures { (levels : List Level) (l : Liberties) (t : Trace W) →
        Follows monitor.now levels l t → links ≡ length levels →
        (result.reading ≡ is_free links perm.Branch block t)
        × (result.writing ≡ is_free links perm.Trunk block t)
        × (result.shown ≡ shown) }
{
    let mut free = Freedom {
        reading: true,
        writing: true,
        shown,
    };
    for n in 0..links {
        let held = monitor.held_under(Link(n), block);
        free = beside(free, held, shown);
    }
    free
}

/// The same for a block after the beat of this link that was taken last. `others` is the same for the other links, if
/// it is known.
pub fn freedom_now<const W: usize>(
    monitor: &Monitor<W>,
    links: u8,
    link: Link,
    block: u32,
    shown: bool,
    others: Option<Freedom>,
) -> Freedom
    ensures { (levels : List Level) (l : Liberties) (x : Beat W) (t : Trace W) →
        Follows monitor.now levels l ((link, x) ∷ t) → links ≡ length levels → link.0 < length levels →
        IsLeft others (Some block) link.0 (length levels) t →
        IsFreeFor result (length levels) block ((link, x) ∷ t) × (result.shown ≡ shown) }
{
    match others {
        None => freedom_of(monitor, links, block, shown),
        Some(free) => beside(free, monitor.held_under(link, block), shown),
    }
}

/// Whether this block, if there is one, is free by the permissions of the other links. It is known if this link holds
/// no permission of it: then it is `free`.
#[inline(always)]
pub fn left_by_others<const W: usize>(
    monitor: &Monitor<W>,
    link: Link,
    held: Option<u32>,
    free: Freedom,
) -> Option<Freedom>
    ensures { (levels : List Level) (l : Liberties) (t : Trace W) → Follows monitor.now levels l t →
        link.0 < length levels → IsSaid held free (length levels) t → IsLeft result held link.0 (length levels) t }
{
    match held {
        Some(block) if leaves(Perm::Trunk, monitor.held_under(link, block)) => Some(free),
        _ => None,
    }
}
