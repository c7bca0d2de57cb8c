//! Reads a line of text as a commit with an address of 64 bits.

ghost use Rattle.std.specs.Prelude.{◌≡◌, ◌++◌, ◌+◌, ◌≤◌, Ok, Some, IfOk, IfSome, length, take, drop};
ghost use Rattle.std.specs.Result.{result_err};
ghost use Rattle.tl_beat.specs.declared.beat.Link.{Link};
ghost use Rattle.tl_events.specs.code.FromLeft.{last_number_at};
ghost use Rattle.tl_wide_events.specs.declared.commit.WideCommit.{WideCommit};
ghost use Rattle.tl_wide_events.specs.code.Halves.{IsFaultUnless};
ghost use Rattle.tl_wide_events.specs.statement.WideCommitLine.{SpellsWideCommit, wide_commit_fault};

use crate::commit::WideCommit;
use arrayvec::ArrayVec;
use tl_beat::beat::Link;
use tl_beat::fault::LineFault;
use tl_beat::read::field::digits;
use tl_events::read::read_commit;

/// The most bytes of the line of a commit whose address has 32 bits.
const LONGEST: usize = 33;

/// The number of eight digits, and nothing after them.
fn half(bytes: &[u8]) -> Result<u32, LineFault>
    ensures { result ≡ last_number_at 8 bytes.now }
{
    let (number, rest) = digits(bytes, 8)?;
    if !rest.is_empty() {
        return Err(LineFault::F3);
    }
    Ok(number)
}

/// The line without the higher half of its address.
fn shortened(line: &[u8]) -> ArrayVec<u8, LONGEST>
    requires long { 15 ≤ length line.now }
    requires short { length line.now ≤ 41 }
    ensures { result.items ≡ take 7 line.now ++ drop 15 line.now }
{
    let mut short = ArrayVec::new();
    let _ = short.try_extend_from_slice(&line[..7]);
    let _ = short.try_extend_from_slice(&line[15..]);
    short
}

/// Reads the line of a commit: the shorter line without the higher half of its address, and that half.
fn read_halves(line: &[u8]) -> Option<(Link, WideCommit)>
    ensures spelled { IfSome result (λ read. SpellsWideCommit line.now read.0 read.1) }
    ensures every_spelling { (link : Link) (x : WideCommit) → SpellsWideCommit line.now link x →
        result ≡ Some (link, x) }
{
    if line.len() < 24 || line.len() > 41 {
        return None;
    }
    let Ok(high) = half(&line[7..15]) else {
        return None;
    };
    let short = shortened(line);
    match read_commit(short.as_slice()) {
        Ok((link, commit)) => Some((link, WideCommit::widened(commit, high))),
        Err(_) => None,
    }
}

/// The first fault of a line that spells no commit with an address of 64 bits: that of a commit's line, or a wrong
/// address if it spells a commit with one of 32 bits.
fn fault_of(line: &[u8]) -> LineFault
    ensures { IsFaultUnless (wide_commit_fault line.now) result }
{
    match read_commit(line) {
        Ok(_) => LineFault::F3,
        Err(fault) => fault,
    }
}

/// Reads a line of text, with its line feed, as a link and a commit with an address of 64 bits. The error for a line that
/// spells no such commit is its first fault. It takes any bytes and allocates no memory. A line of more than 256 bytes is
/// refused by its length alone.
pub fn read_wide_commit(line: &[u8]) -> Result<(Link, WideCommit), LineFault>
    // What is read is spelled by the line, whatever the line spells is read, and the fault of a line that spells none
    // is the first of the table.
    ensures spelled { IfOk result (λ read. SpellsWideCommit line.now read.0 read.1) }
    ensures every_spelling { (link : Link) (x : WideCommit) → SpellsWideCommit line.now link x →
        result ≡ Ok (link, x) }
    ensures fault { result_err result ≡ wide_commit_fault line.now }
{
    match read_halves(line) {
        Some(read) => Ok(read),
        None => Err(fault_of(line)),
    }
}
