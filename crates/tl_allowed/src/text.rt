//! The liberties that would allow a beat, in words.

ghost use Rattle.std.specs.Prelude.{◌≡◌, ◌++◌, OnOk};
ghost use Rattle.tl_allowed.specs.statement.Allowed.{allowance_text};

use std::alloc::AllocError;
use tl_params::liberties::Liberty;

/// Appends the end of the sentence of a fault that each of these liberties alone would allow: after a space their names
/// in brackets, joined by `or`; empty if there are none. With the error a part of it may be appended.
pub fn append_allowance(liberties: &[Liberty], out: &mut Vec<u8>) -> Result<(), AllocError>
    ensures { OnOk result (out.new.items ≡ out.old.items ++ allowance_text liberties.now) }
{
    if liberties.is_empty() {
        return Ok(());
    }
    let mut before = " (allowed under ";
    for liberty in liberties {
        out.extend_from_slice(before.as_bytes())?;
        out.extend_from_slice(liberty.name().as_bytes())?;
        before = " or ";
    }
    out.push(b')')?;
    Ok(())
}
