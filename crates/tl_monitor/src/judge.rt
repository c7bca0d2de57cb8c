//! Judges a beat by the state of its link, and takes it.

ghost use Rattle.std.specs.Prelude.{IsTrue, None, Some, true, false, ◌≡◌};
ghost use Rattle.std.specs.Bool.{OnTrue, OnFalse};
ghost use Rattle.tl_beat.specs.statement.Width.{IsWidth};
ghost use Rattle.tl_burst.specs.statement.Messages.{History};
ghost use Rattle.tl_burst.specs.statement.Part.{is_small};
ghost use Rattle.tl_params.specs.declared.level.Level.{Level};
ghost use Rattle.tl_params.specs.declared.liberties.Liberties.{Liberties};
ghost use Rattle.tl_rules.specs.statement.Liberties.{broken_after_under, broken_in_order_under};
ghost use Rattle.tl_monitor.specs.code.Lawful.{IsLawful};
ghost use Rattle.tl_monitor.specs.code.LinkState.{is_first, IsNext};
ghost use Rattle.tl_monitor.specs.code.Keeps.{Keeps, answered, Takes, TakesBeat};
ghost use Rattle.tl_monitor.specs.code.LinkState.{is_access};
ghost use Rattle.tl_rules.specs.statement.History.{is_acquire};
ghost use Rattle.tl_beat.specs.declared.beat.Beat.TheVariants.{A, D};

use crate::link_state::{LinkState, is_access};
use crate::past::KeptUnder;
use std::alloc::AllocError;
use tl_beat::beat::{Beat, BeatA, BeatD};
use tl_burst::burst::burst_length;
use tl_rules::kind::{answers, is_acquire};
use tl_rules::legality::beat::check_beat_under;
use tl_rules::level::Level;
use tl_rules::liberties::Liberties;
use tl_rules::order::broken_order_under;
use tl_rules::rule::Rule;

impl LinkState {
    /// Judges the first beat of a request that concerns no block, and takes it if it breaks no rule of the order of
    /// messages.
    #[inline(always)]
    fn begin_request<const W: usize>(&mut self, x: &BeatA<W>, beat: &Beat<W>) -> Option<Rule>
        requires width { IsWidth W }
        requires small { IsTrue (is_small beat.now) }
        requires first { is_first beat.now self.old ≡ true }
        requires same { beat.now ≡ A x.now }
        requires access { is_acquire x.now.opcode ≡ false }
        ensures rule { (l : Liberties) (t : History W) → Keeps l self.old t →
            result ≡ broken_in_order_under l beat.now t }
        ensures takes { (l : Liberties) → Takes l self.old beat.now self.new result }
    {
        if self.requests.get(x.source).is_some() {
            return Some(Rule::H1);
        }
        self.take_access(true, burst_length(beat) <= 1, beat);
        None
    }

    /// The same for an answer that concerns no block.
    #[inline(always)]
    fn begin_answer<const W: usize>(
        &mut self,
        liberties: Liberties,
        x: &BeatD<W>,
        beat: &Beat<W>,
    ) -> Option<Rule>
        requires width { IsWidth W }
        requires small { IsTrue (is_small beat.now) }
        requires first { is_first beat.now self.old ≡ true }
        requires same { beat.now ≡ D x.now }
        requires access { is_access x.now.opcode ≡ true }
        ensures rule { (t : History W) → Keeps liberties self.old t →
            result ≡ broken_in_order_under liberties beat.now t }
        ensures takes { Takes liberties self.old beat.now self.new result }
    {
        let Some(request) = self.open_request::<W>(liberties.early, x.source) else {
            return Some(Rule::H2);
        };
        if !answers(x.opcode, request.opcode) {
            return Some(Rule::H2);
        }
        if x.size != request.size {
            return Some(Rule::H3);
        }
        self.take_access(true, burst_length(beat) <= 1, beat);
        None
    }

    /// The rule of the order of messages that the first beat of a message breaks. Takes the beat if it breaks none.
    fn begin<const W: usize>(
        &mut self,
        liberties: Liberties,
        beat: &Beat<W>,
    ) -> Result<Option<Rule>, AllocError>
        requires width { IsWidth W }
        requires small { IsTrue (is_small beat.now) }
        requires first { is_first beat.now self.old ≡ true }
        ensures rule { (t : History W) → Keeps liberties self.old t →
            answered result ≡ broken_in_order_under liberties beat.now t }
        ensures takes { TakesBeat liberties self.old beat.now self.new result }
    {
        match beat {
            Beat::A(x) if !is_acquire(x.opcode) => Ok(self.begin_request(x, beat)),
            Beat::D(x) if is_access(x.opcode) => Ok(self.begin_answer(liberties, x, beat)),
            Beat::A(_) => self.begin_transfer(liberties, beat),
            Beat::B(_) => self.begin_transfer(liberties, beat),
            Beat::C(_) => self.begin_transfer(liberties, beat),
            Beat::D(_) => self.begin_transfer(liberties, beat),
            Beat::E(_) => self.begin_transfer(liberties, beat),
        }
    }

    /// Looks a block up, so that questions about it don't search.
    #[inline(always)]
    fn cache(&mut self, block: Option<u32>)
        ensures { self.new ≡ self.old }
    {
        if let Some(block) = block {
            self.blocks.cache_block(block);
        }
    }

    /// The same for messages that concern a block.
    #[inline(always)]
    fn begin_transfer<const W: usize>(
        &mut self,
        liberties: Liberties,
        beat: &Beat<W>,
    ) -> Result<Option<Rule>, AllocError>
        requires width { IsWidth W }
        requires small { IsTrue (is_small beat.now) }
        requires first { is_first beat.now self.old ≡ true }
        ensures rule { (t : History W) → Keeps liberties self.old t →
            answered result ≡ broken_in_order_under liberties beat.now t }
        ensures takes { TakesBeat liberties self.old beat.now self.new result }
    {
        let last = burst_length(beat) <= 1;
        let block = self.touched(true, last, beat);
        self.cache(block);
        let past = KeptUnder {
            liberties,
            state: self,
        };
        if let Some(rule) = broken_order_under(liberties, beat, &past) {
            return Ok(Some(rule));
        }
        self.take(liberties, true, last, beat, block)?;
        Ok(None)
    }

    /// The rule of bursts that a later beat of a message breaks. Takes the beat if it breaks none.
    #[inline(always)]
    fn go_on<const W: usize>(
        &mut self,
        liberties: Liberties,
        beat: &Beat<W>,
    ) -> Result<Option<Rule>, AllocError>
        requires width { IsWidth W }
        requires small { IsTrue (is_small beat.now) }
        requires later { is_first beat.now self.old ≡ false }
        ensures rule { (t : History W) → Keeps liberties self.old t →
            answered result ≡ broken_in_order_under liberties beat.now t }
        ensures takes { TakesBeat liberties self.old beat.now self.new result }
    {
        let Some(burst) = self.bursts.of(beat) else {
            return Ok(None);
        };
        if !beat.has_control(&burst.control) {
            return Ok(Some(Rule::S1));
        }
        if burst.left > 1 {
            self.bursts.count(beat);
            return Ok(None);
        }
        let block = self.touched(false, true, beat);
        self.take(liberties, false, true, beat, block)?;
        Ok(None)
    }

    /// Takes a beat in the middle of a response with the control fields of the earlier ones, if neither corrupt nor
    /// denied is set, and returns whether it did. Otherwise nothing changes. Such a beat breaks no rule, as the earlier
    /// ones don't.
    fn goes_on<const W: usize>(&mut self, beat: &Beat<W>) -> bool
        requires { IsWidth W }
        ensures rule { OnTrue result ((l : Liberties) (level : Level) (t : History W) →
            IsLawful W l level self.old.bursts.d → Keeps l self.old t → None ≡ broken_after_under l level beat.now t) }
        ensures next { OnTrue result ((l : Liberties) → IsNext l self.old beat.now self.new) }
        ensures lawful { OnTrue result ((l : Liberties) (level : Level) →
            IsLawful W l level self.old.bursts.d → IsLawful W l level self.new.bursts.d) }
        ensures unchanged { OnFalse result (self.new ≡ self.old) }
    {
        let Beat::D(response) = beat else {
            return false;
        };
        let Some(burst) = &mut self.bursts.d else {
            return false;
        };
        if burst.left <= 1
            || response.corrupt
            || response.denied
            || !beat.has_control(&burst.control)
        {
            return false;
        }
        burst.left -= 1;
        true
    }

    /// The rule of bursts or of the order of messages that a beat breaks, if it breaks no L rule.
    fn broken_in_order<const W: usize>(&self, liberties: Liberties, beat: &Beat<W>) -> Option<Rule>
        ensures { (t : History W) → Keeps liberties self.now t →
            result ≡ broken_in_order_under liberties beat.now t }
    {
        if self.bursts.begins(beat) {
            let past = KeptUnder {
                liberties,
                state: self,
            };
            broken_order_under(liberties, beat, &past)
        } else if self.bursts.continues(beat) {
            None
        } else {
            Some(Rule::S1)
        }
    }

    /// The first rule that a beat breaks on a link of this level.
    #[tactic(auto, unfolding(tl_rules::specs::statement::Liberties::broken_after_under))]
    pub fn broken<const W: usize>(
        &self,
        liberties: Liberties,
        level: Level,
        beat: &Beat<W>,
    ) -> Option<Rule>
        requires { IsWidth W }
        ensures { (t : History W) → Keeps liberties self.now t →
            result ≡ broken_after_under liberties level beat.now t }
    {
        match check_beat_under(liberties, level, beat.channel(), beat) {
            Err(rule) => Some(rule),
            Ok(()) => self.broken_in_order(liberties, beat),
        }
    }

    /// `push` for a beat that `goes_on` doesn't take.
    #[inline(always)]
    #[tactic(auto, unfolding(tl_rules::specs::statement::Liberties::broken_after_under))]
    fn push_in_arm<const W: usize>(
        &mut self,
        liberties: Liberties,
        level: Level,
        beat: &Beat<W>,
    ) -> Result<Option<Rule>, AllocError>
        requires { IsWidth W }
        ensures rule { (t : History W) → Keeps liberties self.old t →
            answered result ≡ broken_after_under liberties level beat.now t }
        ensures takes { TakesBeat liberties self.old beat.now self.new result }
        ensures lawful { IsLawful W liberties level self.old.bursts.d → IsLawful W liberties level self.new.bursts.d }
    {
        match check_beat_under(liberties, level, beat.channel(), beat) {
            Err(rule) => Ok(Some(rule)),
            Ok(()) => {
                if self.bursts.begins(beat) {
                    self.begin(liberties, beat)
                } else {
                    self.go_on(liberties, beat)
                }
            }
        }
    }

    /// The first rule that a beat breaks on a link of this level. Takes the beat if it breaks none. The error means
    /// that there is no memory left; then nothing changes. It is compiled for each channel by itself, so that the code
    /// for the others drops out.
    #[inline(always)]
    #[tactic(auto, unfolding(tl_rules::specs::statement::Liberties::broken_after_under))]
    pub fn push<const W: usize>(
        &mut self,
        liberties: Liberties,
        level: Level,
        beat: &Beat<W>,
    ) -> Result<Option<Rule>, AllocError>
        requires { IsWidth W }
        ensures rule { (t : History W) → IsLawful W liberties level self.old.bursts.d → Keeps liberties self.old t →
            answered result ≡ broken_after_under liberties level beat.now t }
        ensures takes { TakesBeat liberties self.old beat.now self.new result }
        ensures lawful { IsLawful W liberties level self.old.bursts.d → IsLawful W liberties level self.new.bursts.d }
    {
        if self.goes_on(beat) {
            return Ok(None);
        }
        match beat {
            Beat::A(_) => self.push_in_arm(liberties, level, beat),
            Beat::B(_) => self.push_in_arm(liberties, level, beat),
            Beat::C(_) => self.push_in_arm(liberties, level, beat),
            Beat::D(_) => self.push_in_arm(liberties, level, beat),
            Beat::E(_) => self.push_in_arm(liberties, level, beat),
        }
    }
}
