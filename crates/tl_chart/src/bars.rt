//! The bars of the permissions that links hold, in SVG.

ghost use Rattle.std.specs.Prelude.{◌≡◌, ◌++◌, ◌∷◌, ◌≤◌, ℕ, List, IfOk, OnOk};
ghost use Rattle.tl_chart.specs.declared.mark.Mark.{Mark};
ghost use Rattle.tl_chart.specs.statement.Picture;
ghost use Rattle.tl_params.specs.declared.perm.Perm.TheVariants as perm;

use crate::layout::{end_place, link_place, row_place};
use crate::mark::Mark;
use crate::text::{append, append_with};
use std::alloc::AllocError;
use tl_params::perm::Perm;

#[tactic(auto, unfolding(crate::specs::statement::Picture::bar_class))]
/// Appends the class of a bar.
fn append_bar_class(class: &str, out: &mut Vec<u8>) -> Result<(), AllocError>
    ensures { OnOk result (out.new.items ≡ out.old.items ++ Picture.bar_class class.now) }
{
    append("<rect class='", out)?;
    append(class, out)?;
    append("'", out)
}

#[tactic(auto, unfolding(crate::specs::statement::Picture::bar_side))]
/// Appends the class of a bar, and its place beside a lifeline.
fn append_bar_side(class: &str, x: u64, out: &mut Vec<u8>) -> Result<(), AllocError>
    requires { x ≤ 1000000 }
    ensures { OnOk result (out.new.items ≡ out.old.items ++ Picture.bar_side class.now x) }
{
    append_bar_class(class, out)?;
    append_with(" x='", x + 4, out)
}

#[tactic(auto, unfolding(crate::specs::statement::Picture::bar_size))]
/// Appends the place and height of a bar.
fn append_bar_size(from: u64, to: u64, out: &mut Vec<u8>) -> Result<(), AllocError>
    ensures { OnOk result (out.new.items ≡ out.old.items ++ Picture.bar_size from to) }
{
    append_with("' y='", from, out)?;
    append_with("' width='6' height='", to.saturating_sub(from), out)?;
    append("'/>\n", out)
}

#[tactic(auto, unfolding(crate::specs::statement::Picture::bar_of))]
/// Appends a bar of a class beside a lifeline, between two places from the top.
fn append_bar_of(
    class: &str,
    x: u64,
    from: u64,
    to: u64,
    out: &mut Vec<u8>,
) -> Result<(), AllocError>
    requires { x ≤ 1000000 }
    ensures { OnOk result (out.new.items ≡ out.old.items ++ Picture.bar_of class.now x from to) }
{
    append_bar_side(class, x, out)?;
    append_bar_size(from, to, out)
}

#[tactic(auto, unfolding(crate::specs::statement::Picture::bar_text))]
/// Appends the bar of a permission; there is none for None.
fn append_bar(held: Perm, x: u64, from: u64, to: u64, out: &mut Vec<u8>) -> Result<(), AllocError>
    requires { x ≤ 1000000 }
    ensures { OnOk result (out.new.items ≡ out.old.items ++ Picture.bar_text held x from to) }
{
    match held {
        Perm::None => Ok(()),
        Perm::Branch => append_bar_of("r", x, from, to, out),
        Perm::Trunk => append_bar_of("w", x, from, to, out),
    }
}

#[tactic(auto, unfolding(crate::specs::statement::Picture::mark_place))]
/// The place at which a permission changes, from the top; the top itself if that was before the window.
fn mark_place(mark: &Mark, rows: &[u64], first: u64) -> u64
    ensures { result ≡ Picture.mark_place rows.now first mark.now }
{
    if mark.line < first {
        row_place(0)
    } else {
        end_place(rows, mark.line)
    }
}

/// A permission, and the place from which it is held.
#[derive(Clone, Copy)]
struct Bar {
    held: Perm,
    from: u64,
}

#[tactic(auto, unfolding(crate::specs::statement::Picture::bars_text))]
/// Appends the bar that a mark ends, if the mark is of the link at x. Returns the bar that goes on.
fn append_mark(
    bar: Bar,
    link: u8,
    mark: &Mark,
    rows: &[u64],
    first: u64,
    x: u64,
    out: &mut Vec<u8>,
) -> Result<Bar, AllocError>
    requires { x ≤ 1000000 }
    ensures { IfOk result (λ next. (bottom : ℕ) (rest : List Mark) →
        out.new.items ++ Picture.bars_text rows.now first bottom link x next.held next.from rest
        ≡ out.old.items ++ Picture.bars_text rows.now first bottom link x bar.held bar.from (mark.now ∷ rest)) }
{
    if mark.link.0 != link {
        return Ok(bar);
    }
    let place = mark_place(mark, rows, first);
    append_bar(bar.held, x, bar.from, place, out)?;
    Ok(Bar {
        held: mark.held,
        from: place,
    })
}

#[tactic(auto, unfolding(crate::specs::statement::Picture::bars_text))]
/// Appends the bars of a link, from its marks.
pub fn append_bars(
    link: u8,
    marks: &[Mark],
    rows: &[u64],
    links: &[u8],
    first: u64,
    bottom: u64,
    out: &mut Vec<u8>,
) -> Result<(), AllocError>
    ensures { OnOk result (out.new.items ≡ out.old.items ++ Picture.bars_text rows.now first bottom link
        (Picture.link_place links.now link) perm.None (Picture.row_place 0) marks.now) }
{
    let x = link_place(links, link);
    let mut bar = Bar {
        held: Perm::None,
        from: row_place(0),
    };
    for mark in marks {
        bar = append_mark(bar, link, mark, rows, first, x, out)?;
    }
    append_bar(bar.held, x, bar.from, bottom, out)
}
