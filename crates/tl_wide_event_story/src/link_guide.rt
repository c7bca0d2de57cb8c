//! Records the beats of a wide trace for a breach of a rule of a link.

ghost use Rattle.std.specs.Prelude.{◌≡◌, ◌++◌, [], true, List, ℕ, IfOk, OnOk, slice_get};
ghost use Rattle.tl_beat.specs.statement.Width.{IsWidth};
ghost use Rattle.tl_commit_story.specs.statement.Grounds.{no_cache_words};
ghost use Rattle.tl_commits.specs.statement.Events.{Events};
ghost use Rattle.tl_events.specs.declared.commit.Event.TheVariants as event;
ghost use Rattle.tl_params.specs.declared.level.Level.{Level};
ghost use Rattle.tl_params.specs.declared.liberties.Liberties.{Liberties};
ghost use Rattle.tl_wide.specs.statement.Width.{IsWideWidth};
ghost use Rattle.tl_wide_event_story.specs.code.Guiding.{ConvictsPart, FollowsLink, KeepsLink, KnowsLinkGuide};
ghost use Rattle.tl_wide_event_story.specs.code.Guiding.{MeetsLink};

use crate::passing::{Met, Passing};
use std::alloc::{AllocError, Global};
use tl_beat::beat::{Beat, Link};
use tl_commit_story::sentences::no_cache_words;
use tl_evidence::conviction::tell_conviction;
use tl_explain::recorder::Recorder;
use tl_lines::links_header::LinksHeader;
use tl_params::level::Level;
use tl_params::liberties::Liberties;
use tl_rules::rule::Rule;
use tl_wide::beat::WideBeat;
use tl_wide_lines::judge::Clue;
use tl_wide_story::allowed_beats::AllowedBeats;
use tl_wide_story::citation::WideWording;
use tl_wide_story::guilty::forget_mask;

/// The beats of the link of an event at fault, and the liberties that would allow it.
#[derive(Drop)]
pub struct LinkGuide<const W: usize, const P: usize> {
    recorder: Recorder,
    may: Liberties,
    /// The level of the link. None if the header names no such link.
    level: Option<Level>,
    wording: WideWording<W>,
    /// None if the links are judged together.
    allowed: Option<AllowedBeats<P>>,
    /// The number of lines of the trace that the recorded beats make.
    recorded: u64,
}

/// The liberties that would allow an event, before any beat. None if the links are judged together.
fn allowed_of<const P: usize>(
    alloc: Global,
    together: bool,
    links: &LinksHeader,
) -> Result<Option<AllowedBeats<P>>, AllocError>
    requires { IsWidth P }
{
    if together {
        return Ok(None);
    }
    Ok(Some(AllowedBeats::new(alloc, links)?))
}

impl<const W: usize, const P: usize> LinkGuide<W, P> {
    #[tactic(auto, using(tl_wide_story::proofs::WideReplaying::is_wide))]
    /// Records for an event of these names, before any beat of the links that a header names.
    pub fn new(
        alloc: Global,
        together: bool,
        clue: &Clue,
        links: &LinksHeader,
    ) -> Result<Self, AllocError>
        requires wide { IsWideWidth W }
        requires width { IsWidth P }
        ensures { IfOk result (λ g. KnowsLinkGuide g links.now.may links.now.levels.items []) }
    {
        let allowed = allowed_of(alloc, together, links)?;
        Ok(LinkGuide {
            recorder: Recorder::with_liberties(links.may, clue.subject),
            may: links.may,
            level: links.level_of(clue.subject.link),
            wording: WideWording {
                address: 0,
                source: clue.source,
                sink: clue.sink,
            },
            allowed,
            recorded: 1,
        })
    }

    /// Keeps the address of the block that the verdict is about.
    pub fn note_address(&mut self, at_fault: bool, link: Link, beat: &WideBeat<W>)
        ensures { KeepsLink self.old self.new }
    {
        self.wording
            .note_address(at_fault, link == self.recorder.subject.link, beat);
    }

    /// Takes a part of a wide beat, for the liberties that would allow it.
    pub fn allow(&mut self, link: Link, part: &Beat<P>) -> Result<(), AllocError>
        requires { IsWidth P }
        ensures { KeepsLink self.old self.new }
    {
        match &mut self.allowed {
            None => Ok(()),
            Some(allowed) => allowed.take(link, part),
        }
    }

    /// Records a part of a wide beat whose line is cited so. Returns true if it can be recorded.
    pub fn record(&mut self, cited: &[u8], link: Link, part: &Beat<P>) -> bool
        requires { IsWidth P }
        ensures { result ≡ true → FollowsLink self.old self.new link (event.Beat part.now) }
    {
        let Some(number) = self.recorded.checked_add(1) else {
            return false;
        };
        if self.recorder.take(number, cited, link, part).is_err() {
            return false;
        }
        self.recorded = number;
        true
    }

    /// Appends the evidence, if a part of a wide beat breaks this rule. Returns true if it does.
    fn tell_part(
        &self,
        rule: Rule,
        link: Link,
        part: &Beat<P>,
        out: &mut Vec<u8>,
    ) -> Result<bool, AllocError>
        requires { IsWidth P }
        ensures { IfOk result (λ told. told ≡ true → ConvictsPart self.now rule link part.now) }
    {
        let before = out.len();
        let told = tell_conviction(
            &self.wording,
            self.may,
            self.level,
            &self.recorder,
            rule,
            link,
            part,
            out,
        )?;
        forget_mask::<W>(rule, before, out);
        Ok(told)
    }

    /// Meets a part of the wide beat at fault: appends the evidence if the part breaks this rule, and records it if it doesn't.
    /// Then the text is of no use.
    pub fn meet_part(
        &mut self,
        rule: Rule,
        passing: Passing<'_, W>,
        part: &Beat<P>,
        out: &mut Vec<u8>,
    ) -> Result<Met, AllocError>
        requires { IsWidth P }
        ensures { IfOk result (MeetsLink self.old self.new rule passing.entry.link part.now) }
    {
        self.allow(passing.link, part)?;
        if self.tell_part(rule, passing.link, part, out)? {
            return Ok(Met::AtFault);
        }
        if self.record(passing.cited, passing.link, part) {
            Ok(Met::Taken)
        } else {
            Ok(Met::Strange)
        }
    }

    /// Appends the line that names the liberties of which each alone would allow every part that was taken.
    pub fn tell_allowed(&self, alloc: Global, out: &mut Vec<u8>) -> Result<(), AllocError>
        ensures { OnOk result ((more : List ℕ) × (out.new.items ≡ out.old.items ++ more)) }
    {
        match &self.allowed {
            None => Ok(()),
            Some(allowed) => {
                let mut line = Vec::new(alloc);
                allowed.tell(alloc, &mut line)?;
                out.extend_from_slice(&line)
            }
        }
    }

    /// Appends the grounds for a commit of a link without a cache. Returns true if it is of the recorded link.
    pub fn tell_commit(&self, link: Link, out: &mut Vec<u8>) -> Result<bool, AllocError>
        ensures { IfOk result (λ told. told ≡ true → (may : Liberties) (levels : List Level) (e : Events P) →
            KnowsLinkGuide self.now may levels e →
            out.new.items ≡ out.old.items ++ no_cache_words (slice_get levels link.0)) }
    {
        if link != self.recorder.subject.link {
            return Ok(false);
        }
        out.extend_from_slice(no_cache_words(self.level).as_bytes())?;
        Ok(true)
    }
}
