//! Texts for C.

ghost use Rattle.std.specs.Prelude.{◌≡◌, ◌++◌, OnOk, slice_get};
ghost use Rattle.tl_sessions.specs.statement.Covering.{IsNameWritten, IsNamed, name_of, sentence_at, sentence_of};
ghost use Rattle.tl_cover.specs.statement.Bins.{all_bins};
ghost use Rattle.tl_cover.specs.statement.Covered.{all_situations};
ghost use Rattle.tl_pictures.specs.statement.Named.{name_with};
ghost use Rattle.tl_pictures.specs.statement.Written.{IsWritten, code_text};

use std::alloc::{AllocError, Global};
use tl_cover::bins::BINS;
use tl_cover::situation::Situation;
use tl_pictures::rule::name_of;
use tl_pictures::text::{text_of, write_text};

/// Writes as much of a rule's name as fits, and returns the number of bytes written.
#[unsafe(no_mangle)]
pub extern "C" fn tl_rule_name(rule: u8, into: &mut [u8]) -> usize
    ensures { IsWritten (name_with rule) into.old into.new result }
{
    write_text(name_of(rule).as_bytes(), into)
}

/// Writes as much of the text of a code as fits, and returns the number of bytes written.
#[unsafe(no_mangle)]
pub extern "C" fn tl_error_text(code: u8, into: &mut [u8]) -> usize
    ensures { IsWritten (code_text code) into.old into.new result }
{
    write_text(text_of(code).as_bytes(), into)
}

/// The situation with this number in the list, from 0 on, if there is one.
fn situation_in(all: &[Situation], number: u8) -> Option<Situation>
    ensures { result ≡ slice_get all.now number }
{
    all.get(usize::from(number)).copied()
}

/// The situation with this number in the report, if there is one.
fn situation_at(number: u8) -> Option<Situation>
    ensures { result ≡ slice_get all_situations number }
{
    situation_in(&Situation::ALL, number)
}

/// The bin with this number in the table of a link, if there is one.
fn bin_at(number: u8) -> Option<Situation>
    ensures { result ≡ slice_get all_bins number }
{
    situation_in(&BINS, number)
}

/// Appends a situation's name, if there is one.
fn append_name(situation: Option<Situation>, out: &mut Vec<u8>) -> Result<(), AllocError>
    ensures { OnOk result (out.new.items ≡ out.old.items ++ name_of situation) }
{
    match situation {
        None => Ok(()),
        Some(situation) => situation.append_name(out),
    }
}

/// Writes as much of a situation's name as fits, and returns the number of bytes written. It returns 0 if there is no
/// situation, or no memory.
fn write_name(alloc: Global, situation: Option<Situation>, into: &mut [u8]) -> usize
    ensures { IsNameWritten situation into.old into.new result }
{
    let mut name = Vec::new(alloc);
    match append_name(situation, &mut name) {
        Err(_) => 0,
        Ok(()) => write_text(name.as_slice(), into),
    }
}

/// A situation's sentence; empty if there is no situation.
fn sentence_of(situation: Option<Situation>) -> &'static str
    ensures { result.now ≡ sentence_of situation }
{
    match situation {
        None => "",
        Some(situation) => situation.sentence(),
    }
}

/// Writes as much of a situation's name as fits, and returns the number of bytes written. It returns 0 if there is no
/// such situation, or no memory.
#[unsafe(no_mangle)]
pub extern "C" fn tl_situation_name(alloc: Global, situation: u8, into: &mut [u8]) -> usize
    ensures { IsNamed all_situations situation into.old into.new result }
{
    write_name(alloc, situation_at(situation), into)
}

/// Writes as much of a situation's sentence as fits, and returns the number of bytes written.
#[unsafe(no_mangle)]
pub extern "C" fn tl_situation_text(situation: u8, into: &mut [u8]) -> usize
    ensures { IsWritten (sentence_at all_situations situation) into.old into.new result }
{
    write_text(sentence_of(situation_at(situation)).as_bytes(), into)
}

/// Writes as much of a bin's name as fits, and returns the number of bytes written. It returns 0 if there is no such
/// bin, or no memory.
#[unsafe(no_mangle)]
pub extern "C" fn tl_bin_name(alloc: Global, bin: u8, into: &mut [u8]) -> usize
    ensures { IsNamed all_bins bin into.old into.new result }
{
    write_name(alloc, bin_at(bin), into)
}

/// Writes as much of a bin's sentence as fits, and returns the number of bytes written.
#[unsafe(no_mangle)]
pub extern "C" fn tl_bin_text(bin: u8, into: &mut [u8]) -> usize
    ensures { IsWritten (sentence_at all_bins bin) into.old into.new result }
{
    write_text(sentence_of(bin_at(bin)).as_bytes(), into)
}
