//! Decodes lines of wide beats.

ghost use Rattle.std.specs.Prelude.{IfErr, IfOk, OnErr};
ghost use Rattle.tl_lines.specs.statement.Run.{GivesUpFor, FailsAt, RunsTo};
ghost use Rattle.tl_wide.specs.statement.Width.{wide_bytes_of};
ghost use Rattle.tl_wide_lines.specs.statement.WideDecoded.{DecodedSoFar, DecodedWide};

use crate::decoder::WideDecoder;
use std::alloc::Global;
use std::io::{Read, Write};
use tl_lines::engine::handle_input;
use tl_lines::status::{Status, ToolFault};
use tl_wide::width::WideWidth;

/// Decodes beat lines of this width: reads the input to its end or to the first line that spells no wide beat, and
/// writes a readable line for each beat, and `line N X` for that line. The memory doesn't grow with the input. The
/// status and the errors are those of `tl_engine::tool::run_tool`.
pub fn decode_wide<R: Read, W: Write>(
    alloc: Global,
    width: WideWidth,
    reader: &mut R,
    writer: &mut W,
) -> Result<Status, ToolFault>
    ensures ok { IfOk result (RunsTo (DecodedWide (wide_bytes_of width)) (R.remaining reader.old)
        (R.remaining reader.new) (W.contents writer.old) (W.contents writer.new)) }
    ensures err { OnErr result (FailsAt (DecodedWide (wide_bytes_of width)) (R.remaining reader.old)
        (R.remaining reader.new) (W.contents writer.old) (W.contents writer.new)) }
    ensures fault { IfErr result (GivesUpFor (DecodedSoFar (wide_bytes_of width)) (DecodedWide (wide_bytes_of width))
        (R.remaining reader.old) (R.remaining reader.new) (W.contents writer.old) (W.contents writer.new)) }
{
    match width {
        WideWidth::Four => handle_input(alloc, WideDecoder::<4> {}, reader, writer),
        WideWidth::Eight => handle_input(alloc, WideDecoder::<8> {}, reader, writer),
        WideWidth::Sixteen => handle_input(alloc, WideDecoder::<16> {}, reader, writer),
        WideWidth::ThirtyTwo => handle_input(alloc, WideDecoder::<32> {}, reader, writer),
        WideWidth::SixtyFour => handle_input(alloc, WideDecoder::<64> {}, reader, writer),
    }
}
