//! Reads the lines of a trace again, up to the line at fault, and records the beats before it.

ghost use Rattle.std.specs.Prelude.{◌≡◌, ◌≢◌, ℕ, List, [], IfErr, IfOk, IfSome, true, ⊤};
ghost use Rattle.std.specs.Io.KnownBytes.{Consumes};
ghost use Rattle.tl_reasons.specs.code.Replaying.{HasReachedIn, KnowsReplay, ReadsFront};
ghost use Rattle.tl_reasons.specs.code.Replaying.{ReadsLine, TakesBeat, TakesFault, TakesHeader};
ghost use Rattle.tl_lines.specs.declared.status.Status.TheVariants.{Clean};
ghost use Rattle.tl_lines.specs.statement.Width.{bytes_of};

use crate::replay::Replay;
use std::alloc::{AllocError, Global};
use std::io::Read;
use tl_beat::read::read_line;
use tl_lines::engine::{new_chunk, next_piece};
use tl_lines::fault::Fault;
use tl_lines::line_handler::LineHandler;
use tl_lines::lines::{Lines, first_line};
use tl_lines::status::{Status, ToolFault};
use tl_lines::trace_judge::read_for;
use tl_params::width::Width;

/// The bytes of data that a beat carries.
fn bytes(width: Width) -> usize
    ensures { result ≡ bytes_of width }
{
    match width {
        Width::Four => 4,
        Width::Eight => 8,
        Width::Sixteen => 16,
    }
}

impl<const W: usize> Replay<W> {
    /// Takes the header. Returns true if it has this width and these liberties, and this level of the link at fault.
    fn take_header(&mut self, line: &[u8]) -> bool
        ensures { result ≡ true → TakesHeader self.old self.new line.now }
    {
        let Some(header) = read_for(self.allow, line) else {
            return false;
        };
        if header.may != self.may || bytes(header.width) != W {
            return false;
        }
        if header.level_of(self.recorder.subject.link) != self.level {
            return false;
        }
        self.count = 1;
        true
    }

    /// Records a beat. Returns true if the line spells one that can be recorded.
    fn take_beat(&mut self, line: &[u8]) -> bool
        ensures { result ≡ true → TakesBeat self.old self.new line.now }
    {
        let Some(number) = self.count.checked_add(1) else {
            return false;
        };
        let Ok((link, beat)) = read_line::<W>(line) else {
            return false;
        };
        if self.recorder.take(number, line, link, &beat).is_err() {
            return false;
        }
        self.count = number;
        true
    }

    /// Takes the line at fault. Returns true if it is the same as before.
    fn take_fault(&mut self, line: &[u8]) -> bool
        ensures { result ≡ true → TakesFault self.old self.new line.now }
    {
        if line != self.line.line() {
            return false;
        }
        self.reached = true;
        true
    }

    /// Takes the next line. Returns true if it may be the same as before.
    fn take_line(&mut self, line: &[u8]) -> bool
        ensures { result ≡ true → ReadsLine self.old self.new line.now }
    {
        if self.reached {
            true
        } else if self.count == 0 {
            self.take_header(line)
        } else if self.count == self.good {
            self.take_fault(line)
        } else {
            self.take_beat(line)
        }
    }
}

impl<const W: usize> LineHandler for Replay<W> {
    ghost knows = { λ r lines text. KnowsReplay r lines };

    ghost purpose = { λ _. tt };

    ghost tells = { λ _ _ _ _. ⊤ };

    ghost ends = { λ _ _. ⊤ };

    fn handle_line(
        &mut self,
        line: &[u8],
        _out: &mut Vec<u8>,
    ) -> Result<Option<Fault>, AllocError> {
        if self.take_line(line) {
            Ok(None)
        } else {
            Ok(Some(Fault::Header))
        }
    }

    fn open_fault(&self) -> Fault {
        Fault::Header
    }

    fn finish(&self, _count: u64, _out: &mut Vec<u8>) -> Result<Option<Fault>, AllocError> {
        Ok(None)
    }
}

#[tactic(auto, using(tl_lines::proofs::GivenUp::unwritten_by))]
/// Reads a piece, up to the line at fault. Returns `Broken` if a line can't be the same as before.
fn read_piece<const W: usize>(
    lines: &mut Lines<Replay<W>>,
    piece: &[u8],
    out: &mut Vec<u8>,
) -> Result<Status, ToolFault>
    ensures ok { IfOk result (λ status. status ≡ Clean →
        ReadsFront lines.old lines.new piece.now out.old.items out.new.items) }
    ensures fault { IfErr result (λ fault. fault ≢ ToolFault.Write) }
{
    let mut rest = piece;
    while let Some((line, after)) = first_line(rest) {
        match lines.take_line(line, out)? {
            Status::Clean => rest = after,
            Status::Broken => return Ok(Status::Broken),
        }
        if lines.handler().reached {
            return Ok(Status::Clean);
        }
    }
    lines.keep(rest, out)
}

/// Reads a trace again, up to the line at fault. None if that line isn't reached, or a line isn't the same as before.
pub fn read_again<const W: usize, R: Read>(
    alloc: Global,
    reader: &mut R,
    start: Replay<W>,
) -> Result<Option<Replay<W>>, ToolFault>
    requires { KnowsReplay start [] }
    ensures ok { IfOk result (λ end. IfSome end (λ replay. (read : List ℕ)
        × Consumes (R.remaining reader.old) (R.remaining reader.new) read × HasReachedIn replay read)) }
    ensures fault { IfErr result (λ fault. fault ≢ ToolFault.Write) }
{
    let mut chunk = new_chunk(alloc)?;
    let mut out = Vec::new(alloc);
    let mut lines = Lines::new(start);
    for _ in 0..u64::MAX {
        let count = next_piece(reader, &mut chunk)?;
        if count == 0 {
            return Ok(None);
        }
        match read_piece(&mut lines, &chunk[..count], &mut out)? {
            Status::Clean => {}
            Status::Broken => return Ok(None),
        }
        if lines.handler().reached {
            return Ok(Some(lines.into_handler()));
        }
    }
    Ok(None)
}
