//! The lines of an explanation: keys, permissions and beats in words.

ghost use Rattle.std.specs.Prelude.{◌≡◌, ◌++◌, OnOk};
ghost use Rattle.tl_beat.specs.declared.beat.Beat.{Beat};
ghost use Rattle.tl_beat.specs.declared.beat.Link.{Link};
ghost use Rattle.tl_beat.specs.statement.Line.{Spells};
ghost use Rattle.tl_beat.specs.statement.Width.{IsWidth};
ghost use Rattle.tl_explain.specs.statement.Spelled.{spelled};
ghost use Rattle.tl_explain.specs.statement.Sentences.{beat_line, perm_name};

use crate::text::append_text;
use crate::told::Told;
use crate::wording::Wording;
use itoa::Buffer;
use std::alloc::AllocError;
use std::io;
use std::io::Write;
use tl_beat::read::read_line;
use tl_params::key::Key;
use tl_params::perm::Perm;

/// The name of a permission.
pub fn perm_name(perm: Perm) -> &'static str
    ensures { result.now ≡ perm_name perm }
{
    match perm {
        Perm::None => "None",
        Perm::Branch => "Branch",
        Perm::Trunk => "Trunk",
    }
}

/// The address of a block.
pub fn address_of(block: u32) -> u32 {
    block.wrapping_mul(64)
}

/// Appends a label, and the address of a block.
fn append_block<const W: usize, X: Wording<W>>(
    wording: &X,
    label: &str,
    block: u32,
    out: &mut Vec<u8>,
) -> io::Result<()> {
    out.write_all(label.as_bytes())?;
    wording.append_address(address_of(block), out)
}

/// Appends a source, and the kind of its message.
fn append_source<const W: usize, X: Wording<W>>(
    wording: &X,
    source: u8,
    kind: &str,
    out: &mut Vec<u8>,
) -> io::Result<()> {
    out.write_all(b"source ")?;
    wording.append_source(source, out)?;
    out.write_all(kind.as_bytes())
}

/// Appends a key in words.
pub fn append_key<const W: usize, X: Wording<W>>(
    wording: &X,
    key: Key,
    out: &mut Vec<u8>,
) -> io::Result<()> {
    match key {
        Key::RequestSource(source) => append_source(wording, source, " of a request", out),
        Key::ReleaseSource(source) => append_source(wording, source, " of a Release", out),
        Key::AcquireOf(block) => append_block(wording, "an Acquire of block ", block, out),
        Key::ReleaseOf(block) => append_block(wording, "a Release of block ", block, out),
        Key::GrantSink(sink) => {
            out.write_all(b"sink ")?;
            wording.append_sink(sink, out)?;
            out.write_all(b" of a Grant")
        }
        Key::GrantAckOf(block) => append_block(wording, "the GrantAck of block ", block, out),
        Key::ProbeOf(block) => append_block(wording, "a Probe of block ", block, out),
    }
}

#[tactic(auto, unfolding(crate::specs::statement::Sentences::beat_line))]
/// Appends the words of a beat line, after its number.
pub fn append_beat_line<const W: usize>(
    number: u64,
    line: &[u8],
    out: &mut Vec<u8>,
) -> Result<(), AllocError>
    requires { IsWidth W }
    ensures { OnOk result ((link : Link) (beat : Beat W) → Spells line.now link beat →
        out.new.items ≡ out.old.items ++ beat_line number link beat) }
{
    let mut digits = Buffer::new();
    out.extend_from_slice(b"  ")?;
    out.extend_from_slice(digits.format(number).as_bytes())?;
    out.extend_from_slice(b": ")?;
    match read_line::<W>(line) {
        Ok((_, beat)) => append_text(line, &beat, out)?,
        Err(_) => out.push(b'\n')?,
    }
    Ok(())
}

/// Appends the words of a cited beat, after the number of its line.
pub fn append_told<const W: usize>(told: &Told, out: &mut Vec<u8>) -> io::Result<()>
    requires { IsWidth W }
    ensures { OnOk result ((link : Link) (beat : Beat W) → Spells (spelled told.now.spelling) link beat →
        out.new.items ≡ out.old.items ++ beat_line told.now.mention.line link beat) }
{
    append_beat_line::<W>(told.mention.line, told.spelling.line(), out)?;
    Ok(())
}
