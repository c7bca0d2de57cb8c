//! Explains a breach of a rule between links.

ghost use Rattle.std.specs.Prelude.{ℕ, Bool, false, List, None, Some, ◌<◌, ◌≡◌, ◌≢◌, ◌++◌, OnOk, length};
ghost use Rattle.tl_beat.specs.declared.beat.Beat.TheVariants as beat;
ghost use Rattle.tl_beat.specs.declared.beat.BeatD.{BeatD};
ghost use Rattle.tl_beat.specs.statement.Width.{IsWidth};
ghost use Rattle.tl_memory.specs.code.Changing.{IsChange};
ghost use Rattle.tl_memory.specs.statement.Links.{KeepsRules};
ghost use Rattle.tl_params.specs.declared.level.Level.{Level};
ghost use Rattle.tl_params.specs.declared.liberties.Liberties.{Liberties};
ghost use Rattle.tl_rules.specs.code.Open.{open_request};
ghost use Rattle.tl_rules.specs.declared.past.Request.{Request};
ghost use Rattle.tl_rules.specs.statement.Conformance.{Trace, on_link};
ghost use Rattle.tl_rules.specs.statement.History as history;
ghost use Rattle.tl_together.specs.statement.Knows.{Knows};
ghost use Rattle.tl_witness.specs.code.Witness.{KnowsWitness};
ghost use Rattle.tl_witness.specs.statement.Grounds.{access_text, conflicts_text};
ghost use Rattle.tl_witness.specs.statement.Strays.{bytes_text};

use crate::places::Places;
use crate::strays::tell_strays;
use crate::text::append_asked;
use crate::witness::Witness;
use std::alloc::AllocError;
use tl_beat::beat::{Beat, BeatD, Link};
use tl_memory::free::needs;
use tl_memory::memory::Change;
use tl_rules::kind::capped;
use tl_rules::memory_rule::MemoryRule;
use tl_together::judge::Judge;

/// Appends the line in which the request of an access was complete, and each link that holds a conflicting permission.
fn tell_access<const W: usize, X: Places>(
    places: &X,
    witness: &Witness,
    judge: &Judge<W>,
    link: Link,
    source: u8,
    out: &mut Vec<u8>,
) -> Result<(), AllocError>
    ensures { OnOk result ((levels : List Level) (l : Liberties) (asked : Request) (block : ℕ) (t : Trace W) →
        Knows judge.now levels l t false → KnowsWitness witness.now (length levels) block t → link.0 < length levels →
        open_request source (on_link link.0 t) ≡ Some asked →
        out.new.items ≡ out.old.items ++ access_text (X.names places.now) (length levels) link.0 source asked block t) }
{
    let Some(asked) = judge.request(link, source) else {
        return Ok(());
    };
    let Some(moment) = judge.asked(link, source) else {
        return Ok(());
    };
    append_asked(places, u128::from(moment) + 1, out)?;
    witness.tell_holders(places, needs(asked.opcode), out)
}

/// Appends a line for each byte of these lanes of a response's beat that it may not have, given this change by the
/// beat: for the first eight, and then the number of the others.
fn tell_lanes_of<const W: usize, X: Places>(
    places: &X,
    judge: &Judge<W>,
    change: &Change<W>,
    link: Link,
    lanes: &[u8; W],
    out: &mut Vec<u8>,
) -> Result<(), AllocError>
    requires { IsWidth W }
    ensures { OnOk result ((levels : List Level) (l : Liberties) (x : BeatD W) (t : Trace W) →
        x.lanes ≡ Some lanes.now →
        Knows judge.now levels l t false → KeepsRules l levels (link, beat.D x) t →
        IsChange change.now judge.now.memory (length levels) (link, beat.D x) t →
        out.new.items ≡ out.old.items ++ bytes_text (X.names places.now) x.opcode (length levels) link.0 x t) }
{
    match judge.expected(change, link) {
        None => Ok(()),
        Some(expected) => tell_strays(places, expected, judge, judge.beats_come(link), lanes, out),
    }
}

/// Appends a line for each byte of a response's beat that it may not have: for the first eight, and then the number of
/// the others. The judge stays as it is.
fn tell_bytes<const W: usize, X: Places>(
    places: &X,
    judge: &mut Judge<W>,
    link: Link,
    x: &BeatD<W>,
    out: &mut Vec<u8>,
) -> Result<(), AllocError>
    requires { IsWidth W }
    ensures knows { (levels : List Level) (l : Liberties) (t : Trace W) (closed : Bool) →
        Knows judge.old levels l t closed → Knows judge.new levels l t closed }
    ensures bytes { OnOk result ((levels : List Level) (l : Liberties) (t : Trace W) →
        Knows judge.old levels l t false →
        KeepsRules l levels (link, beat.D x.now) t →
        out.new.items ≡ out.old.items ++ bytes_text (X.names places.now) x.now.opcode (length levels) link.0 x.now t) }
{
    let Some(lanes) = &x.lanes else {
        return Ok(());
    };
    match judge.change(link, &Beat::D(*x)) {
        Ok(change) => tell_lanes_of(places, judge, &change, link, lanes, out),
        Err(_) => Err(AllocError),
    }
}

/// Appends the explanation of a breach of a rule between links by a beat, with lines and addresses that are named so.
/// The judge stays as it is.
pub fn tell<const W: usize, X: Places>(
    places: &X,
    witness: &Witness,
    judge: &mut Judge<W>,
    rule: MemoryRule,
    link: Link,
    x: &BeatD<W>,
    out: &mut Vec<u8>,
) -> Result<(), AllocError>
    requires { IsWidth W }
    ensures knows { (levels : List Level) (l : Liberties) (t : Trace W) (closed : Bool) →
        Knows judge.old levels l t closed → Knows judge.new levels l t closed }
    ensures grant { rule ≡ MemoryRule.M1 →
        OnOk result ((levels : List Level) (l : Liberties) (block : ℕ) (t : Trace W) →
        Knows judge.old levels l t false → KnowsWitness witness.now (length levels) block t →
        out.new.items ≡ out.old.items
        ++ conflicts_text (X.names places.now) (length levels) link.0 (history.capped x.now.param) block t) }
    ensures access { rule ≡ MemoryRule.M4 → OnOk result ((levels : List Level) (l : Liberties) (asked : Request)
        (block : ℕ) (t : Trace W) → Knows judge.old levels l t false →
        KnowsWitness witness.now (length levels) block t → link.0 < length levels →
        open_request x.now.source (on_link link.0 t) ≡ Some asked →
        out.new.items ≡ out.old.items ++ access_text (X.names places.now) (length levels) link.0 x.now.source asked
        block t) }
    ensures bytes { rule ≢ MemoryRule.M1 → rule ≢ MemoryRule.M4 → OnOk result ((levels : List Level) (l : Liberties)
        (t : Trace W) → Knows judge.old levels l t false → KeepsRules l levels (link, beat.D x.now) t →
        out.new.items ≡ out.old.items ++ bytes_text (X.names places.now) x.now.opcode (length levels) link.0 x.now t) }
{
    match rule {
        MemoryRule::M1 => witness.tell_conflicts(places, judge, link.0, capped(x.param), out),
        MemoryRule::M4 => tell_access(places, witness, judge, link, x.source, out),
        _ => tell_bytes(places, judge, link, x, out),
    }
}
