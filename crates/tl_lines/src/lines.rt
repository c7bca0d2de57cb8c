//! Splits an input that comes in pieces into its lines.

ghost use Rattle.std.specs.Prelude.{◌≡◌, ◌+◌, ◌++◌, [], ◌≤◌, ◌<◌, ◌^◌, ◌-◌, ℕ, List, length, if◌then◌else◌};
ghost use Rattle.std.specs.Prelude.{IfOk, IfErr, MatchOption, Ok, take};
ghost use Rattle.memchr.specs.Find.{IsFirstByte, is_byte};
ghost use Rattle.tl_lines.specs.statement.Fault.{fault_text};
ghost use Rattle.tl_lines.specs.code.Judging.{Ends};
ghost use Rattle.tl_lines.specs.statement.Lines.{IsLine, IsOpen, LacksLf, lines_of};
ghost use Rattle.tl_lines.specs.code.FirstLine.{marks};
ghost use Rattle.tl_lines.specs.code.Progress.{Continues, CountsLine, EndsWithin, Feeds, FinishesInput, GivesUp, HasAll};
ghost use Rattle.tl_lines.specs.code.Progress.{GivesUpWithin, Progress, StopsAt, lines_judged};

use crate::fault::{Fault, append_fault};
use crate::line_handler::LineHandler;
use crate::status::{Status, ToolFault};
use arrayvec::ArrayVec;
use memchr::memchr;
use std::alloc::AllocError;
use std::mem;
use std::simd::u8x16;

/// A handler, the number of lines that it has judged, and the beginning of a line whose end hasn't come.
#[derive(Drop)]
pub struct Lines<H> {
    handler: H,
    count: u64,
    begun: ArrayVec<u8, 256>,
}

impl From<AllocError> for ToolFault {
    ghost use Rattle.tl_lines.specs.declared.status.ToolFault.{ToolFault};

    ghost from_gives = { λ _ fault. fault ≡ ToolFault.Memory };

    fn from(_error: AllocError) -> ToolFault {
        ToolFault::Memory
    }
}

/// Which of the first 16 bytes are LF: a bit each, that of the first byte the lowest.
#[inline(always)]
fn ends_among(bytes: &[u8]) -> u64
    requires { 16 ≤ length bytes.now }
    ensures { result ≡ marks (take 16 bytes.now) }
{
    u8x16::from_slice(bytes)
        .simd_eq(u8x16::splat(b'\n'))
        .to_bitmask()
}

/// Which of the first 48 bytes are LF.
#[inline(always)]
fn near_ends(bytes: &[u8]) -> u64
    requires { 48 ≤ length bytes.now }
    ensures { result ≡ marks (take 48 bytes.now) }
{
    let front = ends_among(bytes);
    let middle = ends_among(&bytes[16..]);
    let back = ends_among(&bytes[32..]);
    front + (middle << 16) + (back << 32)
}

/// The place of the first LF, which is mostly among the first 48 bytes, and else among the next 16.
#[inline(always)]
fn line_end(bytes: &[u8]) -> Option<usize>
    ensures { IsFirstByte (is_byte 10) bytes.now result }
{
    if bytes.len() >= 64 {
        let near = near_ends(bytes);
        if near != 0 {
            return Some(near.trailing_zeros() as usize);
        }
        let far = ends_among(&bytes[48..]);
        if far != 0 {
            return Some(48 + far.trailing_zeros() as usize);
        }
    }
    memchr(b'\n', bytes)
}

/// The first line of these bytes with its LF, and the bytes after it.
#[inline(always)]
pub fn first_line(bytes: &[u8]) -> Option<(&[u8], &[u8])>
    ensures { MatchOption result (LacksLf bytes.now) (λ parts. IsLine parts.0.now
        × (parts.0.now ++ parts.1.now ≡ bytes.now)) }
{
    let end = line_end(bytes)?;
    Some(bytes.split_at(end + 1))
}

/// The number of the line after these; `Read` after line 2^64 - 1, the last.
fn number_after(count: u64) -> Result<u64, ToolFault>
    ensures next { IfOk result (λ number. number ≡ count + 1) }
    ensures fault { IfErr result (λ fault. (fault ≡ ToolFault.Read) × (count ≡ 2 ^ 64 - 1)) }
{
    count.checked_add(1).ok_or(ToolFault::Read)
}

/// Counts a line that was judged; `Read` after line 2^64 - 1, the last.
#[inline(always)]
fn count_line(count: &mut u64) -> Result<(), ToolFault>
    ensures next { IfOk result (λ _. count.new ≡ count.old + 1) }
    ensures fault { IfErr result (λ fault. (fault ≡ ToolFault.Read) × (count.old ≡ 2 ^ 64 - 1)) }
{
    *count = count.wrapping_add(1);
    if *count == 0 {
        return Err(ToolFault::Read);
    }
    Ok(())
}

/// Judges the line after these, and appends its text or its fault.
#[inline(always)]
fn handle_counted_line<H: LineHandler>(
    handler: &mut H,
    count: &mut u64,
    line: &[u8],
    out: &mut Vec<u8>,
) -> Result<Status, ToolFault>
    ensures counts { IfOk result (CountsLine H.knows (H.tells (H.purpose handler.old)) handler.old handler.new count.old
        count.new line.now out.old.items out.new.items) }
    ensures purpose { IfOk result (λ _. H.purpose handler.new ≡ H.purpose handler.old) }
    ensures ends { result ≡ Ok Status.Broken → Ends H.knows H.ends handler.old handler.new line.now }
    ensures fault { IfErr result (GivesUp count.old) }
{
    match handler.handle_line(line, out)? {
        None => {
            count_line(count)?;
            Ok(Status::Clean)
        }
        Some(fault) => {
            append_fault(number_after(*count)?, fault, out)?;
            Ok(Status::Broken)
        }
    }
}

/// Joins a line to the beginning that has come, and returns false. A line without such a beginning is at hand: nothing
/// changes, and true is returned. None if a joined line has more than 256 bytes.
#[inline(always)]
fn join(begun: &mut ArrayVec<u8, 256>, line: &[u8]) -> Option<bool>
    ensures { MatchOption result (256 < length begun.old.items + length line.now) (λ at_hand.
        (if at_hand then line.now else begun.new.items) ≡ begun.old.items ++ line.now) }
{
    if begun.is_empty() {
        return Some(true);
    }
    if begun.try_extend_from_slice(line).is_err() {
        return None;
    }
    Some(false)
}

/// The line that is judged: the one at hand, or the joined one. Both are judged by one call, so that the compiler puts
/// the handler into its caller.
#[inline(always)]
fn whole_line<'a>(at_hand: bool, line: &'a [u8], joined: &'a [u8]) -> &'a [u8]
    ensures { result.now ≡ (if at_hand then line.now else joined.now) }
{
    if at_hand { line } else { joined }
}

impl<H: LineHandler> Lines<H> {
    /// No line has been judged yet.
    pub fn new(handler: H) -> Lines<H>
        ensures knows { H.knows handler [] [] → Progress H.knows result [] [] }
        ensures handler { result.handler ≡ handler }
    {
        Lines {
            handler,
            count: 0,
            begun: ArrayVec::new(),
        }
    }

    /// The judge of the lines.
    pub fn handler(&self) -> &H
        ensures { result.now ≡ self.now.handler }
    {
        &self.handler
    }

    /// The judge of the lines, by value.
    pub fn into_handler(self) -> H
        ensures { result ≡ self.handler }
    {
        self.handler
    }

    /// Appends the fault of a line that has no LF or more than 256 bytes.
    fn stop(&self, out: &mut Vec<u8>) -> Result<Status, ToolFault>
        ensures broken { IfOk result (λ status. status ≡ Status.Broken) }
        ensures stops { IfOk result (λ _. (line : List ℕ) → IsOpen line →
            StopsAt H.knows (H.tells (H.purpose self.now.handler)) self.now.handler self.now.count line
            out.old.items out.new.items) }
        ensures says { IfOk result (λ _. (fault : Fault)
            × (out.new.items ≡ out.old.items ++ fault_text (self.now.count + 1) fault)) }
        ensures ends { IfOk result (λ _. (line : List ℕ) → IsOpen line →
            Ends H.knows H.ends self.now.handler self.now.handler line) }
        ensures fault { IfErr result (GivesUp (lines_judged self.now)) }
    {
        let number = number_after(self.count)?;
        append_fault(number, self.handler.open_fault(), out)?;
        Ok(Status::Broken)
    }

    /// Judges a line, the beginning of which may have come with earlier pieces.
    pub fn take_line(&mut self, line: &[u8], out: &mut Vec<u8>) -> Result<Status, ToolFault>
        requires { IsLine line.now }
        ensures feeds { IfOk result (Feeds H.knows (H.tells (H.purpose self.old.handler)) self.old self.new line.now
            out.old.items out.new.items) }
        ensures purpose { IfOk result (λ _. H.purpose self.new.handler ≡ H.purpose self.old.handler) }
        ensures ends { result ≡ Ok Status.Broken → EndsWithin H.knows H.ends self.old self.new.handler line.now
            out.old.items }
        ensures fault { IfErr result (GivesUp (lines_judged self.old)) }
    {
        let Some(at_hand) = join(&mut self.begun, line) else {
            return self.stop(out);
        };
        let whole = whole_line(at_hand, line, self.begun.as_slice());
        let status = handle_counted_line(&mut self.handler, &mut self.count, whole, out)?;
        self.begun.clear();
        Ok(status)
    }

    /// Keeps the beginning of a line. A line that has 256 bytes and no LF is at fault at once.
    pub fn keep(&mut self, rest: &[u8], out: &mut Vec<u8>) -> Result<Status, ToolFault>
        requires { LacksLf rest.now }
        ensures feeds { IfOk result (Feeds H.knows (H.tells (H.purpose self.old.handler)) self.old self.new rest.now
            out.old.items out.new.items) }
        ensures purpose { IfOk result (λ _. H.purpose self.new.handler ≡ H.purpose self.old.handler) }
        ensures ends { result ≡ Ok Status.Broken → EndsWithin H.knows H.ends self.old self.new.handler rest.now
            out.old.items }
        ensures fault { IfErr result (GivesUp (lines_judged self.old)) }
    {
        if self.begun.try_extend_from_slice(rest).is_err() || self.begun.is_full() {
            return self.stop(out);
        }
        Ok(Status::Clean)
    }

    /// Judges a whole line and the lines that end in the bytes after it, and keeps the beginning of the next. Only the
    /// first line can have begun in an earlier piece, so that no other one is joined.
    #[inline(always)]
    fn judge_lines<'a>(
        &mut self,
        first: &'a [u8],
        after: &'a [u8],
        out: &mut Vec<u8>,
    ) -> Result<Status, ToolFault>
        requires { self.old.begun.items ≡ [] }
        ensures feeds { (begun : Lines H) (part : List ℕ) → Continues begun self.old part first.now →
            IfOk result (Feeds H.knows (H.tells (H.purpose self.old.handler)) begun self.new (part ++ after.now)
            out.old.items out.new.items) }
        ensures purpose { IfOk result (λ _. H.purpose self.new.handler ≡ H.purpose self.old.handler) }
        ensures ends { (begun : Lines H) (part : List ℕ) → Continues begun self.old part first.now →
            result ≡ Ok Status.Broken → EndsWithin H.knows H.ends begun self.new.handler (part ++ after.now)
            out.old.items }
        ensures fault { (begun : Lines H) (part : List ℕ) → Continues begun self.old part first.now →
            IfErr result (GivesUpWithin H.knows begun (part ++ after.now) out.old.items) }
    {
        let mut line = first;
        let mut rest = after;
        loop {
            match handle_counted_line(&mut self.handler, &mut self.count, line, out)? {
                Status::Clean => {}
                Status::Broken => return Ok(Status::Broken),
            }
            match first_line(rest) {
                Some((next, after)) => {
                    line = next;
                    rest = after;
                }
                None => return self.keep(rest, out),
            }
        }
    }

    /// Judges the lines that end in a piece of the input, and keeps the beginning of the next.
    pub fn feed(&mut self, piece: &[u8], out: &mut Vec<u8>) -> Result<Status, ToolFault>
        ensures feeds { IfOk result (Feeds H.knows (H.tells (H.purpose self.old.handler)) self.old self.new piece.now
            out.old.items out.new.items) }
        ensures purpose { IfOk result (λ _. H.purpose self.new.handler ≡ H.purpose self.old.handler) }
        ensures ends { result ≡ Ok Status.Broken → EndsWithin H.knows H.ends self.old self.new.handler piece.now
            out.old.items }
        ensures fault { IfErr result (GivesUpWithin H.knows self.old piece.now out.old.items) }
    {
        let Some((line, rest)) = first_line(piece) else {
            return self.keep(piece, out);
        };
        let mut begun = mem::replace(&mut self.begun, ArrayVec::new());
        let Some(at_hand) = join(&mut begun, line) else {
            return self.stop(out);
        };
        let whole = whole_line(at_hand, line, begun.as_slice());
        self.judge_lines(whole, rest, out)
    }

    /// Judges the end of the input. A rest without an LF is a line too.
    pub fn finish(&self, out: &mut Vec<u8>) -> Result<Status, ToolFault>
        ensures finishes { IfOk result (FinishesInput H.knows (H.tells (H.purpose self.now.handler)) self.now out.old.items
            out.new.items) }
        ensures has { IfOk result (λ status. (read text : List ℕ) → Progress H.knows self.now read text →
            HasAll H.knows H.ends self.now.handler (lines_of read) status) }
        ensures fault { IfErr result (GivesUp (lines_judged self.now)) }
    {
        if !self.begun.is_empty() {
            return self.stop(out);
        }
        match self.handler.finish(self.count, out)? {
            None => Ok(Status::Clean),
            Some(fault) => {
                append_fault(number_after(self.count)?, fault, out)?;
                Ok(Status::Broken)
            }
        }
    }
}
