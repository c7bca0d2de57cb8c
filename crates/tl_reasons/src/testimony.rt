//! Judges the lines of a trace again, all links together, and reports the grounds for a breach of a rule of memory.

ghost use Rattle.std.specs.Prelude.{◌≡◌, ◌+◌, ◌++◌, Bool, List, IfOk, OnOk, Some, true};
ghost use Rattle.tl_beat.specs.declared.beat.Beat.{Beat};
ghost use Rattle.tl_beat.specs.declared.beat.Link.{Link};
ghost use Rattle.tl_beat.specs.statement.Line.{Spells};
ghost use Rattle.tl_beat.specs.statement.Width.{IsWidth};
ghost use Rattle.tl_reasons.specs.code.Testifying.{Concludes, EndsTestimony, Hears, HearsHeader, HearsLine};
ghost use Rattle.tl_reasons.specs.code.Testifying.{IsSameInquiry, KnowsTestimony, RecordsBeat, StillKnows, TellsFault};
ghost use Rattle.tl_reasons.specs.code.Testifying.{TellsBeat, TellsRecorded, TellsResponse};
ghost use Rattle.tl_lines.specs.statement.JudgedLinks.{JudgedLinks};
ghost use Rattle.tl_reasons.specs.statement.Explained.{memory_front_text};
ghost use Rattle.tl_memory.specs.code.Elsewhere as elsewhere;
ghost use Rattle.tl_params.specs.declared.level.Level.{Level};
ghost use Rattle.tl_params.specs.declared.liberties.Liberties.{Liberties};
ghost use Rattle.tl_rules.specs.statement.Conformance.{Trace};
ghost use Rattle.tl_together.specs.statement.Knows.{Knows};

use std::alloc::{AllocError, Global};
use tl_beat::beat::{Beat, BeatD, Link};
use tl_beat::read::read_line;
use tl_explain::named::append_memory_sentence;
use tl_explain::told::Spelling;
use tl_explain::wording::AsRecorded;
use tl_explain::words::append_beat_line;
use tl_lines::fault::Fault;
use tl_lines::follow::Alone;
use tl_lines::line_handler::LineHandler;
use tl_lines::link_lines::{LinkJudge, LinkLines};
use tl_lines::links_header::read_links;
use tl_lines::trace_judge::TraceJudge;
use tl_rules::memory_rule::MemoryRule;
use tl_rules::past::Request;
use tl_together::judge::Judge;
use tl_witness::grounds::tell;
use tl_witness::witness::Witness;

/// The number of blocks: an address has 32 bits.
const BLOCKS: u32 = 1 << 26;

/// Appends the text of a rule of memory, and the beat that breaks it.
fn append_memory_front<const W: usize>(
    rule: MemoryRule,
    number: u64,
    line: &[u8],
    out: &mut Vec<u8>,
) -> Result<(), AllocError>
    requires { IsWidth W }
    ensures { OnOk result ((link : Link) (beat : Beat W) → Spells line.now link beat →
        out.new.items ≡ out.old.items ++ memory_front_text rule number link beat) }
{
    out.extend_from_slice(b"  ")?;
    append_memory_sentence(rule, out)?;
    append_beat_line::<W>(number, line, out)
}

/// Appends the grounds for a breach of a rule of memory by a response, and returns true. Without a witness it returns
/// false. The judge's knowledge stays the same.
fn tell_recorded<const W: usize>(
    witness: &Option<Witness>,
    judge: &mut Judge<W>,
    rule: MemoryRule,
    link: Link,
    x: &BeatD<W>,
    out: &mut Vec<u8>,
) -> Result<bool, AllocError>
    requires { IsWidth W }
    ensures judge { (levels : List Level) (l : Liberties) (t : Trace W) (closed : Bool) →
        Knows judge.old levels l t closed → Knows judge.new levels l t closed }
    ensures tells { IfOk result (λ told. told ≡ true →
        TellsRecorded witness.now judge.old rule link x.now out.old.items out.new.items) }
{
    let Some(witness) = witness else {
        return Ok(false);
    };
    tell(&AsRecorded, witness, judge, rule, link, x, out)?;
    Ok(true)
}

/// The block of a request, if there is one.
pub(crate) fn block_asked(asked: Option<Request>) -> Option<u32>
    ensures { result ≡ elsewhere.block_asked asked }
{
    match asked {
        None => None,
        Some(asked) => Some(asked.block),
    }
}

/// Whether the rules of memory are the same.
pub(crate) fn is_same_rule(one: MemoryRule, other: MemoryRule) -> bool
    ensures { result ≡ true → one ≡ other }
{
    one == other
}

/// Whether the fault is a breach of this rule.
fn is_breach(fault: Option<Fault>, rule: MemoryRule) -> bool
    ensures { result ≡ true → fault ≡ Some (Fault.MemoryRule rule) }
{
    match fault {
        Some(Fault::MemoryRule(broken)) => is_same_rule(broken, rule),
        _ => false,
    }
}

/// An inquiry into the lines up to the one at fault.
#[derive(Drop)]
pub struct Inquiry {
    /// The rule of memory that the line at fault breaks.
    pub rule: MemoryRule,
    /// The block of the request that its response answers.
    pub block: u32,
    /// The number of lines before it, with the header.
    pub good: u64,
    pub line: Spelling,
    /// The number of lines that have been heard.
    pub count: u64,
    /// The permissions that each link holds of the block. None before the header, or after a beat that couldn't be
    /// recorded.
    pub witness: Option<Witness>,
    /// The line at fault was reached, and breaks the rule.
    pub reached: bool,
    /// The text of the rule, the response, and the grounds.
    pub reasons: Vec<u8>,
}

impl Inquiry {
    /// Hears the header, and begins to record the permissions of its links, if the block exists.
    fn hear_header(&mut self, alloc: Global, line: &[u8]) -> Result<(), AllocError>
        ensures { OnOk result (HearsHeader self.old self.new line.now) }
    {
        let Some(header) = read_links(line) else {
            return Ok(());
        };
        if self.block >= BLOCKS {
            return Ok(());
        }
        let links = header.levels.len() as u8;
        self.witness = Some(Witness::new(alloc, links, self.block)?);
        Ok(())
    }

    /// Takes the beat of a line of this number. Returns true if it could be recorded.
    fn take_beat<const W: usize>(&mut self, line: &[u8], number: u64) -> bool
        requires { IsWidth W }
        ensures same { IsSameInquiry self.old self.new }
        ensures recorded { result ≡ true → RecordsBeat W self.old self.new number line.now }
        ensures reasons { self.new.reasons ≡ self.old.reasons }
    {
        let Some(witness) = &mut self.witness else {
            return false;
        };
        match read_line::<W>(line) {
            Ok((link, beat)) => witness.take(number, line, link, &beat).is_ok(),
            Err(_) => false,
        }
    }

    /// Records the beat of a line of this number. If it can't be recorded, the witness is dropped, and later beats
    /// aren't recorded.
    fn record<const W: usize>(&mut self, line: &[u8], number: u64)
        requires { IsWidth W }
        ensures same { IsSameInquiry self.old self.new }
        ensures recorded { RecordsBeat W self.old self.new number line.now }
        ensures reasons { self.new.reasons ≡ self.old.reasons }
    {
        if !self.take_beat::<W>(line, number) {
            self.witness = None;
        }
    }

    /// Whether the witness is of the block of this request.
    fn is_of(&self, asked: Option<Request>) -> bool
        ensures { result ≡ true → elsewhere.block_asked asked ≡ Some self.now.block }
    {
        match asked {
            None => false,
            Some(asked) => asked.block == self.block,
        }
    }

    /// Appends the reasons for the response in the line at fault. Returns true if the grounds are complete.
    fn tell_response<const W: usize>(
        &mut self,
        judge: &mut Judge<W>,
        line: &[u8],
        number: u64,
        link: Link,
        x: &BeatD<W>,
    ) -> Result<bool, AllocError>
        requires { IsWidth W }
        ensures same { IsSameInquiry self.old self.new }
        ensures witness { self.new.witness ≡ self.old.witness }
        ensures judge { (levels : List Level) (l : Liberties) (t : Trace W) (closed : Bool) →
            Knows judge.old levels l t closed → Knows judge.new levels l t closed }
        ensures tells { IfOk result (λ told. told ≡ true →
            TellsResponse self.old self.new judge.old number line.now link x.now) }
    {
        if !self.is_of(judge.request(link, x.source)) {
            return Ok(false);
        }
        self.reasons.clear();
        append_memory_front::<W>(self.rule, number, line, &mut self.reasons)?;
        tell_recorded(&self.witness, judge, self.rule, link, x, &mut self.reasons)
    }

    /// Appends the reasons for the beat in the line at fault, if it is a response and all links are judged together.
    /// Returns true if the grounds are complete.
    fn tell_beat<const W: usize>(
        &mut self,
        judge: &mut TraceJudge<W>,
        line: &[u8],
        number: u64,
        link: Link,
        beat: &Beat<W>,
    ) -> Result<bool, AllocError>
        requires { IsWidth W }
        ensures same { IsSameInquiry self.old self.new }
        ensures witness { self.new.witness ≡ self.old.witness }
        ensures judge { StillKnows judge.old judge.new }
        ensures tells { IfOk result (λ told. told ≡ true →
            TellsBeat self.old self.new judge.old number line.now link beat.now) }
    {
        let Beat::D(x) = beat else {
            return Ok(false);
        };
        match judge {
            TraceJudge::OfLinks(_) => Ok(false),
            TraceJudge::OfAll(judge) => self.tell_response(judge, line, number, link, x),
        }
    }

    /// Hears a line of this number if it is the one at fault. Returns true if it is, and its reasons were appended.
    fn hear_fault<const W: usize>(
        &mut self,
        judge: &mut TraceJudge<W>,
        line: &[u8],
        number: u64,
    ) -> Result<bool, AllocError>
        requires width { IsWidth W }
        requires counted { number ≡ self.old.count + 1 }
        ensures same { IsSameInquiry self.old self.new }
        ensures witness { self.new.witness ≡ self.old.witness }
        ensures judge { StillKnows judge.old judge.new }
        ensures tells { IfOk result (λ told. told ≡ true → TellsFault self.old self.new judge.old number line.now) }
    {
        if self.count != self.good || line != self.line.line() {
            return Ok(false);
        }
        match read_line::<W>(line) {
            Ok((link, beat)) => self.tell_beat(judge, line, number, link, &beat),
            Err(_) => Ok(false),
        }
    }

    /// Hears a line of this number after the header, before it is judged. Returns true if it is the line at fault and
    /// its reasons were appended.
    fn hear_beat<const W: usize>(
        &mut self,
        judge: &mut TraceJudge<W>,
        line: &[u8],
        number: u64,
    ) -> Result<bool, AllocError>
        requires width { IsWidth W }
        requires counted { number ≡ self.old.count + 1 }
        ensures heard { IfOk result (HearsLine self.old self.new judge.old number line.now) }
        ensures judge { StillKnows judge.old judge.new }
    {
        let told = self.hear_fault(judge, line, number)?;
        self.record::<W>(line, number);
        Ok(told)
    }

    /// Hears a line of this number, before it is judged. Returns true if it is the line at fault and its reasons were
    /// appended. The judge's knowledge stays the same.
    fn hear(&mut self, judge: &mut LinkJudge, line: &[u8], number: u64) -> Result<bool, AllocError>
        requires { number ≡ self.old.count + 1 }
        ensures { IfOk result (Hears judge.old judge.new self.old self.new number line.now) }
    {
        match judge {
            LinkJudge::Waiting(alloc) => {
                self.hear_header(*alloc, line)?;
                Ok(false)
            }
            LinkJudge::Four(judge) => self.hear_beat(judge, line, number),
            LinkJudge::Eight(judge) => self.hear_beat(judge, line, number),
            LinkJudge::Sixteen(judge) => self.hear_beat(judge, line, number),
        }
    }

    /// Counts a line of this number with its fault, if any. The line at fault is reached if its reasons were appended
    /// and it breaks the rule.
    fn conclude(&mut self, number: u64, told: bool, fault: Option<Fault>)
        ensures { Concludes self.old self.new number told fault }
    {
        self.count = number;
        self.reached = told && is_breach(fault, self.rule);
    }
}

/// Judges the lines of a trace again, all links together, with an inquiry.
#[derive(Drop)]
pub struct Testimony {
    pub link_lines: LinkLines,
    pub inquiry: Inquiry,
}

impl LineHandler for Testimony {
    ghost use Rattle.std.specs.Prelude.{true};
    ghost use Rattle.tl_params.specs.declared.liberties.Liberties.{Liberties};

    ghost knows = { KnowsTestimony };

    ghost Purpose = { Liberties };

    ghost purpose = { λ h. h.link_lines.allow };

    ghost tells = { λ allow. JudgedLinks true allow };

    ghost ends = { EndsTestimony };

    fn handle_line(
        &mut self,
        line: &[u8],
        _out: &mut Vec<u8>,
    ) -> Result<Option<Fault>, AllocError> {
        let number = self.inquiry.count.checked_add(1).ok_or(AllocError)?;
        let told = self.inquiry.hear(&mut self.link_lines.judge, line, number)?;
        let fault = self.link_lines.judge_line(line, &mut Alone)?;
        self.inquiry.conclude(number, told, fault);
        Ok(fault)
    }

    fn open_fault(&self) -> Fault {
        self.link_lines.open_fault()
    }

    fn finish(&self, count: u64, out: &mut Vec<u8>) -> Result<Option<Fault>, AllocError> {
        self.link_lines.finish(count, out)
    }
}
