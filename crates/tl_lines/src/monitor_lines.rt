//! Judges a recorded trace.

ghost use Rattle.std.specs.Prelude.{Bool, ◌≡◌, ◌++◌, [], ℕ, List, IfOk, OnOk, ⊤};
ghost use Rattle.tl_beat.specs.statement.Width.{IsWidth};
ghost use Rattle.tl_lines.specs.code.Judging.{Judges};
ghost use Rattle.tl_lines.specs.declared.monitor_lines.MonitorLines.{MonitorLines};
ghost use Rattle.tl_lines.specs.code.Watching.{Begins, KnowsLines, Watches};
ghost use Rattle.tl_lines.specs.statement.JudgedSo.{JudgedSo};
ghost use Rattle.tl_lines.specs.code.Watching.{end_by, is_together, word_by};

use crate::beat_judge::BeatJudge;
use crate::fault::Fault;
use crate::header::read_header;
use crate::line_handler::LineHandler;
use itoa::Buffer;
use std::alloc::{AllocError, Global};
use std::mem;
use tl_beat::beat::{Beat, BeatE};
use tl_beat::fault::LineFault;
use tl_beat::read::read_into;
use tl_params::width::Width;

/// Judges the lines of a trace: the header, and then the beats of up to 16 links. Each link is judged by itself, or all
/// together if `TOGETHER` is 1.
#[derive(Drop)]
pub enum MonitorLines<const TOGETHER: usize> {
    /// The header hasn't been read.
    Waiting(Global),
    Four(BeatJudge<4>),
    Eight(BeatJudge<8>),
    Sixteen(BeatJudge<16>),
}

/// Judges the line of the next beat. A judge isn't used again after a fault.
#[inline(always)]
fn watch<const W: usize>(judge: &mut BeatJudge<W>, line: &[u8]) -> Result<Option<Fault>, AllocError>
    requires { IsWidth W }
    ensures { IfOk result (λ fault. (together : Bool) → Watches together judge.old judge.new line.now fault) }
{
    let mut beat = Beat::E(BeatE { sink: 0 });
    match read_into(line, &mut beat) {
        Ok(link) => judge.push(link, &beat),
        Err(fault) => Ok(Some(Fault::Line(fault))),
    }
}

/// The word for a trace without a fault.
fn word_by(together: bool) -> &'static str
    ensures { result.now ≡ word_by together }
{
    if together { "coherent " } else { "clean " }
}

/// Appends the text of a trace of this many beats without a fault: `clean N`, or `coherent N` for all links together.
pub fn append_end(together: bool, number: u64, out: &mut Vec<u8>) -> Result<(), AllocError>
    ensures { OnOk result (out.new.items ≡ out.old.items ++ end_by together number) }
{
    let mut digits = Buffer::new();
    out.extend_from_slice(word_by(together).as_bytes())?;
    out.extend_from_slice(digits.format(number).as_bytes())?;
    out.push(b'\n')?;
    Ok(())
}

/// Judges the links that a header names. None if the line is no header.
fn begin<const TOGETHER: usize>(
    alloc: Global,
    line: &[u8],
) -> Result<Option<MonitorLines<TOGETHER>>, AllocError>
    ensures { IfOk result (Begins line.now) }
{
    let Some(header) = read_header(line) else {
        return Ok(None);
    };
    let together = TOGETHER == 1;
    let monitor_lines = match header.width {
        Width::Four => MonitorLines::Four(BeatJudge::new(alloc, together, &header)?),
        Width::Eight => MonitorLines::Eight(BeatJudge::new(alloc, together, &header)?),
        Width::Sixteen => MonitorLines::Sixteen(BeatJudge::new(alloc, together, &header)?),
    };
    Ok(Some(monitor_lines))
}

/// Continues with the judge of the links that the header names. A line that is no header is at fault.
#[cold]
#[inline(never)]
fn start<const TOGETHER: usize>(
    monitor_lines: &mut MonitorLines<TOGETHER>,
    alloc: Global,
    line: &[u8],
) -> Result<Option<Fault>, AllocError>
    requires { monitor_lines.old ≡ MonitorLines.Waiting alloc }
    ensures { (said : List ℕ) → IfOk result (Judges KnowsLines (JudgedSo (is_together TOGETHER)) monitor_lines.old
        monitor_lines.new line.now said said) }
{
    match begin(alloc, line)? {
        None => Ok(Some(Fault::Header)),
        Some(begun) => {
            drop(mem::replace(monitor_lines, begun));
            Ok(None)
        }
    }
}

impl<const TOGETHER: usize> LineHandler for MonitorLines<TOGETHER> {
    ghost knows = { KnowsLines };

    ghost purpose = { λ _. tt };

    ghost tells = { λ _. JudgedSo (is_together TOGETHER) };

    ghost ends = { λ _ _. ⊤ };

    #[inline(always)]
    fn handle_line(
        &mut self,
        line: &[u8],
        _out: &mut Vec<u8>,
    ) -> Result<Option<Fault>, AllocError> {
        match self {
            MonitorLines::Waiting(alloc) => {
                let alloc = *alloc;
                start(self, alloc, line)
            }
            MonitorLines::Four(judge) => watch(judge, line),
            MonitorLines::Eight(judge) => watch(judge, line),
            MonitorLines::Sixteen(judge) => watch(judge, line),
        }
    }

    fn open_fault(&self) -> Fault {
        match self {
            MonitorLines::Waiting(_) => Fault::Header,
            _ => Fault::Line(LineFault::F1),
        }
    }

    fn finish(&self, count: u64, out: &mut Vec<u8>) -> Result<Option<Fault>, AllocError> {
        match self {
            MonitorLines::Waiting(_) => Ok(Some(Fault::Header)),
            _ => {
                append_end(TOGETHER == 1, count.saturating_sub(1), out)?;
                Ok(None)
            }
        }
    }
}
