//! Decodes lines of wide beats.

ghost use Rattle.std.specs.Prelude.{◌≡◌, ℕ, IfErr, IfOk, List, Option};
ghost use Rattle.tltool.specs.Ended.{EndsDecoded};

use crate::input::open;
use crate::told;
use std::io;
use std::io::{Read, Write};
use tl_wide::width::WideWidth;
use tl_wide_lines::decode::decode_wide;

/// Decodes the input of a reader, and returns the exit status.
fn decode_over<R: Read, W: Write>(
    rt: &HostRuntime,
    width: WideWidth,
    input: &mut R,
    output: &mut W,
) -> u8
    ensures { EndsDecoded width (R.remaining input.old) (R.remaining input.new) (W.contents output.old)
        (W.contents output.new) result }
{
    told(rt, decode_wide(rt.alloc(), width, input, output))
}

/// The same for an input that was opened. Otherwise the error is the exit status.
fn decode_opened<R: Read + Drop, W: Write>(
    rt: &HostRuntime,
    width: WideWidth,
    opened: Result<R, u8>,
    output: &mut W,
) -> u8
    ensures opened { IfOk opened (λ input. (left : Option (List ℕ)) × EndsDecoded width (R.remaining input) left
        (W.contents output.old) (W.contents output.new) result) }
    ensures unopened { IfErr opened (λ status. result ≡ status) }
{
    match opened {
        Ok(mut input) => decode_over(rt, width, &mut input, output),
        Err(status) => status,
    }
}

/// Decodes lines of wide beats of this width on standard input, or in the file of this name. Returns the exit status.
pub(crate) fn decode(rt: &HostRuntime, width: WideWidth, name: Option<String>) -> u8 {
    decode_opened(rt, width, open(rt, name.as_deref()), &mut io::writer(rt))
}
