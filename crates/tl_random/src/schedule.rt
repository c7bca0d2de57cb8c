//! Writes a whole schedule.

ghost use Rattle.std.specs.Prelude.{◌≡◌, ◌+◌, ◌<◌, [], ℕ, List, OnOk, OnErr, Option};
ghost use Rattle.tl_beat.specs.statement.Width.{IsWidth};
ghost use Rattle.tl_params.specs.statement.Header.{width_of};
ghost use Rattle.tl_lines.specs.statement.Width.{bytes_of};
ghost use Rattle.tl_random.specs.code.Begun.{IsBegun};
ghost use Rattle.tl_random.specs.statement.Random.{WritesPart, WritesSchedule};

use crate::generator::Generator;
use crate::header::append_schedule_header;
use std::alloc::Global;
use std::io::Write;
use tl_command::random::Options;
use tl_lines::output::write_all;
use tl_lines::status::ToolFault;
use tl_params::width::Width;

/// The number of bytes of lines that are gathered before they are written.
const CHUNK: usize = 65536;

/// Appends the next line to those that are gathered, and writes them if they are many.
fn put_line<const BYTES: usize, W: Write>(
    generator: &mut Generator<BYTES>,
    options: &Options,
    out: &mut Vec<u8>,
    writer: &mut W,
) -> Result<(), ToolFault>
    requires { IsWidth BYTES }
    ensures ok { OnOk result ((k : ℕ) (had : Option (List ℕ))
        → IsBegun BYTES options.now k out.old.items had (W.contents writer.old)
        → IsBegun BYTES options.now (k + 1) out.new.items had (W.contents writer.new)) }
    ensures err { OnErr result ((k : ℕ) (had : Option (List ℕ))
        → IsBegun BYTES options.now k out.old.items had (W.contents writer.old)
        → k < options.now.events
        → WritesPart BYTES options.now.version options.now.config options.now.events had (W.contents writer.new)) }
{
    generator.append_line(options, out)?;
    if out.len() >= CHUNK {
        write_all(writer, out)?;
        out.clear();
    }
    Ok(())
}

/// Writes a schedule for beats of this width.
fn write_lines<const BYTES: usize, W: Write>(
    alloc: Global,
    options: &Options,
    writer: &mut W,
) -> Result<(), ToolFault>
    requires { IsWidth BYTES }
    ensures ok { OnOk result (WritesSchedule BYTES options.now.version options.now.config options.now.events
        (W.contents writer.old) (W.contents writer.new)) }
    ensures err { OnErr result (WritesPart BYTES options.now.version options.now.config options.now.events
        (W.contents writer.old) (W.contents writer.new)) }
{
    let mut generator = Generator::<BYTES>::new(alloc, options)?;
    let mut out = Vec::new(alloc);
    append_schedule_header(options.version, &options.config, &mut out)?;
    for _ in 0..options.events {
        put_line(&mut generator, options, &mut out, writer)?;
    }
    out.extend_from_slice(b"drain\n")?;
    write_all(writer, &out)
}

/// Writes a random schedule: its header, the options' number of lines, each an event of the header's world or `drain`,
/// and a last `drain`. No clause says which schedule it is; `line_drawn` defines how a line is drawn. The memory used
/// doesn't grow with the number of lines. The error is `Memory` or that of the writer; then a first part of such a
/// schedule has been written.
pub fn write_schedule<W: Write>(
    alloc: Global,
    options: &Options,
    writer: &mut W,
) -> Result<(), ToolFault>
    ensures ok { OnOk result (WritesSchedule (bytes_of (width_of options.now.version))
        options.now.version options.now.config options.now.events
        (W.contents writer.old) (W.contents writer.new)) }
    ensures err { OnErr result (WritesPart (bytes_of (width_of options.now.version))
        options.now.version options.now.config options.now.events
        (W.contents writer.old) (W.contents writer.new)) }
{
    match options.version.width() {
        Width::Four => write_lines::<4, W>(alloc, options, writer),
        Width::Eight => write_lines::<8, W>(alloc, options, writer),
        Width::Sixteen => write_lines::<16, W>(alloc, options, writer),
    }
}
