//! The permission that each link of a manager holds of a block, and since which line.

ghost use Rattle.std.specs.Prelude.{ℕ, List, [], ◌∷◌, ◌^◌, ◌<◌, ◌≡◌, ◌++◌, IfOk, OnOk, Some, false, length};
ghost use Rattle.std.specs.Prelude.{option_copied, slice_get};
ghost use Rattle.tl_beat.specs.declared.channel.Channel.TheVariants as channel;
ghost use Rattle.tl_beat.specs.statement.Width.{IsWidth};
ghost use Rattle.tl_bytes.specs.statement.Free.{all_liberties};
ghost use Rattle.tl_explain.specs.statement.Evidence.{burst_opening, last_saying_under, mention_of, next_line};
ghost use Rattle.tl_explain.specs.statement.Since.{IsHeldSinceUnder};
ghost use Rattle.tl_monitor.specs.statement.Granting;
ghost use Rattle.tl_monitor.specs.statement.Granting.{coming};
ghost use Rattle.tl_params.specs.declared.level.Level.{Level};
ghost use Rattle.tl_params.specs.declared.liberties.Liberties.{Liberties};
ghost use Rattle.tl_rules.specs.statement.Conformance.{Trace, on_link};
ghost use Rattle.tl_together.specs.statement.Knows.{Knows};
ghost use Rattle.tl_witness.specs.statement.Grounds.{conflict_by, conflicts_text, holder_text, holders_text};
ghost use Rattle.tl_witness.specs.code.Witness.{IsFresh};

use crate::places::Places;
use crate::text::append_permission;
use std::alloc::{AllocError, Global};
use tl_beat::beat::{Beat, Link};
use tl_explain::bursts::begun_of;
use tl_explain::held::Held;
use tl_explain::recorder::{Recorder, Unrecorded};
use tl_explain::told::Told;
use tl_explain::turns::Subject;
use tl_params::liberties::{Liberties, Liberty};
use tl_params::perm::Perm;
use tl_together::free::leaves;
use tl_together::judge::Judge;

/// The permissions that the links of a manager hold of a block, and the messages that left them.
#[derive(Drop)]
pub struct Witness {
    block: u32,
    links: u8,
    recorders: Vec<Recorder>,
}

/// A recorder of the permission that a link holds of a block, whatever liberties it has.
fn recorder_of(link: u8, block: u32) -> Recorder
    ensures { IsFresh result link block }
{
    let all = Liberties::standard().with(Liberty::Uncorrupt);
    let subject = Subject {
        link: Link(link),
        block,
        source: 0,
        sink: 0,
    };
    Recorder::with_liberties(all, subject)
}

impl Witness {
    ghost use Rattle.tl_witness.specs.code.Witness.{KnowsWitness};

    /// A witness of this many links, before any beat.
    pub fn new(alloc: Global, links: u8, block: u32) -> Result<Self, AllocError>
        ensures { IfOk result (λ h. (w : ℕ) → block < 2 ^ 26 → KnowsWitness {w = w} h links block []) }
    {
        let mut recorders = Vec::new(alloc);
        for n in 0..links {
            recorders.push(recorder_of(n, block))?;
        }
        Ok(Witness {
            block,
            links,
            recorders,
        })
    }

    /// Takes the next beat of a trace, from the line with this number. The error is that of a recorder.
    pub fn take<const W: usize>(
        &mut self,
        number: u64,
        line: &[u8],
        link: Link,
        beat: &Beat<W>,
    ) -> Result<(), Unrecorded>
        requires { IsWidth W }
        ensures { OnOk result ((n block : ℕ) (t : Trace W) → KnowsWitness self.old n block t →
            number ≡ next_line t → KnowsWitness self.new n block ((link, beat.now) ∷ t)) }
    {
        match self.recorders.get_mut(usize::from(link.0)) {
            None => Ok(()),
            Some(recorder) => recorder.take(number, line, link, beat),
        }
    }

    /// The recorder of a link, if there is one.
    fn recorder(&self, link: u8) -> Option<&Recorder>
        ensures { option_copied result ≡ slice_get self.now.recorders.items link }
    {
        self.recorders.get(usize::from(link))
    }

    /// The permission that a link holds of the block, and the message that left it.
    pub fn held(&self, link: u8) -> Held
        ensures said { (w n block : ℕ) (t : Trace w) → KnowsWitness self.now n block t → link < n →
            mention_of result.since ≡ last_saying_under all_liberties link block t }
        ensures since { (w n block : ℕ) (t : Trace w) → KnowsWitness self.now n block t → link < n →
            IsHeldSinceUnder all_liberties link block result.perm (mention_of result.since) t }
    {
        match self.recorder(link) {
            None => Held {
                perm: Perm::None,
                since: None,
            },
            Some(recorder) => recorder.held,
        }
    }

    /// The first beat of the unfinished response on a link.
    fn begun(&self, link: u8) -> Option<Told>
        ensures { (w n block : ℕ) (given : Perm) (t : Trace w) → KnowsWitness self.now n block t → link < n →
            coming block (on_link link t) ≡ Some given → mention_of result ≡ burst_opening link channel.D t }
    {
        match begun_of(&self.recorder(link)?.bursts.d) {
            None => None,
            Some(begun) => Some(begun.first),
        }
    }

    /// Appends the permission that a link holds of the block, if it conflicts with `given`.
    fn tell_holder<X: Places>(
        &self,
        places: &X,
        link: u8,
        given: Perm,
        out: &mut Vec<u8>,
    ) -> Result<(), AllocError>
        ensures { OnOk result ((w n block : ℕ) (t : Trace w) → KnowsWitness self.now n block t → link < n →
            out.new.items ≡ out.old.items ++ holder_text (X.names places.now) link given block t) }
    {
        let held = self.held(link);
        if leaves(given, held.perm) {
            return Ok(());
        }
        append_permission(places, link, " holds ", self.block, &held, out)
    }

    /// Appends a line for each link that holds a permission of the block which conflicts with `given`.
    pub fn tell_holders<X: Places>(
        &self,
        places: &X,
        given: Perm,
        out: &mut Vec<u8>,
    ) -> Result<(), AllocError>
        ensures { OnOk result ((w n block : ℕ) (t : Trace w) → KnowsWitness self.now n block t →
            out.new.items ≡ out.old.items ++ holders_text (X.names places.now) n given block t) }
    {
        for link in 0..self.links {
            self.tell_holder(places, link, given, out)?;
        }
        Ok(())
    }

    /// Appends the permission that a link holds of the block, or is being granted, if it conflicts with `given`.
    fn tell_conflict<X: Places>(
        &self,
        places: &X,
        coming: Option<Perm>,
        link: u8,
        given: Perm,
        out: &mut Vec<u8>,
    ) -> Result<(), AllocError>
        ensures { OnOk result ((w n block : ℕ) (t : Trace w) → KnowsWitness self.now n block t → link < n →
            coming ≡ Granting.coming block (on_link link t) →
            out.new.items ≡ out.old.items ++ conflict_by (X.names places.now) coming link given block t) }
    {
        let Some(perm) = coming else {
            return self.tell_holder(places, link, given, out);
        };
        if leaves(given, perm) {
            return Ok(());
        }
        let granted = Held {
            perm,
            since: self.begun(link),
        };
        append_permission(
            places,
            link,
            " is being granted ",
            self.block,
            &granted,
            out,
        )
    }

    /// Appends a line for each link but this one that holds, or is being granted, a permission of the block which
    /// conflicts with `given`.
    pub fn tell_conflicts<const W: usize, X: Places>(
        &self,
        places: &X,
        judge: &Judge<W>,
        own: u8,
        given: Perm,
        out: &mut Vec<u8>,
    ) -> Result<(), AllocError>
        ensures { OnOk result ((levels : List Level) (l : Liberties) (block : ℕ) (t : Trace W) →
            Knows judge.now levels l t false → KnowsWitness self.now (length levels) block t →
            out.new.items ≡ out.old.items ++ conflicts_text (X.names places.now) (length levels) own given block t) }
    {
        for link in 0..self.links {
            if link != own {
                let coming = judge.coming(Link(link), self.block);
                self.tell_conflict(places, coming, link, given, out)?;
            }
        }
        Ok(())
    }
}
