//! Counts situations at the first beats of messages.

ghost use Rattle.std.specs.Prelude.{Some, false, ◌≡◌, ◌≤◌, IfOk, OnOk, List, length, map};
ghost use Rattle.tl_beat.specs.statement.Width.{IsWidth};
ghost use Rattle.tl_cover.specs.code.Covering.{noted_to, row_with, unseen};
ghost use Rattle.tl_cover.specs.code.Groups.{Fits, has};
ghost use Rattle.tl_cover.specs.declared.row.Row.{Row};

use crate::meets::meets;
use crate::row::Row;
use crate::scene::Scene;
use crate::situation::Situation;
use crate::stretch::Stretch;
use std::alloc::{AllocError, Global};
use tl_beat::beat::Beat;

/// These situations, none of which came.
pub fn new_rows(alloc: Global, all: &[Situation]) -> Result<Vec<Row>, AllocError>
    ensures { IfOk result (λ rows. rows.items ≡ map unseen all.now) }
{
    let mut rows = Vec::new(alloc);
    for situation in all {
        rows.push(Row::new(*situation))?;
    }
    Ok(rows)
}

/// Notes those situations from one place on to another in which a message begins, by the facts about it.
fn note_part<const W: usize>(
    rows: &mut Vec<Row>,
    from: usize,
    to: usize,
    line: u64,
    beat: &Beat<W>,
    scene: &Scene,
) -> Result<(), AllocError>
    requires { IsWidth W }
    ensures { OnOk result ((all : List Row) → from ≤ to → to ≤ length all
        → rows.old.items ≡ noted_to line beat.now scene.now from all
        → rows.new.items ≡ noted_to line beat.now scene.now to all) }
{
    for i in from..to.min(rows.len()) {
        let came = meets(rows[i].situation, beat, scene);
        rows[i].note(came, line)?;
    }
    Ok(())
}

/// The same for those of a stretch, which begins at this place. They are left out if the message is of another group.
fn note_stretch<const W: usize>(
    rows: &mut Vec<Row>,
    at: usize,
    stretch: Stretch,
    line: u64,
    beat: &Beat<W>,
    scene: &Scene,
) -> Result<(), AllocError>
    requires { IsWidth W }
    ensures { OnOk result ((all : List Row) → at ≤ stretch.1 → stretch.1 ≤ length all
        → rows.old.items ≡ noted_to line beat.now scene.now at all
        → (has stretch.0 beat.now ≡ false →
        noted_to line beat.now scene.now at all ≡ noted_to line beat.now scene.now stretch.1 all)
        → rows.new.items ≡ noted_to line beat.now scene.now stretch.1 all) }
{
    if !stretch.0.has(beat) {
        return Ok(());
    }
    note_part(rows, at, stretch.1, line, beat, scene)
}

/// Notes the situations in which a message begins, by the facts about it.
fn note_scene<const W: usize>(
    rows: &mut Vec<Row>,
    stretches: &[Stretch],
    line: u64,
    beat: &Beat<W>,
    scene: &Scene,
) -> Result<(), AllocError>
    requires { IsWidth W }
    ensures { OnOk result (Fits 0 stretches.now rows.old.items →
        rows.new.items ≡ map (row_with line beat.now (Some scene.now)) rows.old.items) }
{
    let mut at = 0;
    for stretch in stretches {
        note_stretch(rows, at, *stretch, line, beat, scene)?;
        at = stretch.1;
    }
    Ok(())
}

/// The same for a beat; None if it doesn't begin a message.
pub fn note_all<const W: usize>(
    rows: &mut Vec<Row>,
    stretches: &[Stretch],
    line: u64,
    beat: &Beat<W>,
    opening: Option<Scene>,
) -> Result<(), AllocError>
    requires { IsWidth W }
    ensures { OnOk result (Fits 0 stretches.now rows.old.items →
        rows.new.items ≡ map (row_with line beat.now opening) rows.old.items) }
{
    match opening {
        None => Ok(()),
        Some(scene) => note_scene(rows, stretches, line, beat, &scene),
    }
}
