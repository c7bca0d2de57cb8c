//! Writes to a device.

ghost use Rattle.std.specs.Prelude.{◌≡◌, ◌++◌, ◌∷◌, [], ℕ, OnOk, OnErr, IfErr, codes};
ghost use Rattle.std.specs.Io.KnownBytes.{Appends};
ghost use Rattle.tl_lines.specs.statement.Fault.{changed_text, once_text, open_fault_text};
ghost use Rattle.tl_lines.specs.statement.Parts.{AppendsPart, AppendsShort};

use crate::status::ToolFault;
use std::io::Write;

/// Writes all of the bytes. A writer that fails or takes none of them is a `Write` fault: it took only a front of the
/// bytes.
pub fn write_all<W: Write>(writer: &mut W, bytes: &[u8]) -> Result<(), ToolFault>
    ensures ok { OnOk result (Appends (W.contents writer.old) (W.contents writer.new) bytes.now) }
    ensures err { OnErr result (AppendsShort (W.contents writer.old) (W.contents writer.new) bytes.now) }
    ensures fault { IfErr result (λ fault. fault ≡ ToolFault.Write) }
{
    let mut done = 0;
    while done < bytes.len() {
        match writer.write(&bytes[done..]) {
            Err(_) => return Err(ToolFault::Write),
            Ok(n) => {
                if n == 0 {
                    return Err(ToolFault::Write);
                }
                done += n;
            }
        }
    }
    Ok(())
}

/// Writes a name between two texts. The only fault is `Write`.
fn write_around<W: Write>(
    front: &[u8],
    name: &str,
    back: &[u8],
    writer: &mut W,
) -> Result<(), ToolFault>
    ensures ok { OnOk result (Appends (W.contents writer.old) (W.contents writer.new)
        (front.now ++ name.now ++ back.now)) }
    ensures err { OnErr result (AppendsPart (W.contents writer.old) (W.contents writer.new)
        (front.now ++ name.now ++ back.now)) }
    ensures fault { IfErr result (λ fault. fault ≡ ToolFault.Write) }
{
    write_all(writer, front)?;
    write_all(writer, name.as_bytes())?;
    write_all(writer, back)?;
    Ok(())
}

/// Writes the line for standard error if a file of this name can't be opened. The only fault is `Write`.
pub fn write_open_fault<W: Write>(name: &str, writer: &mut W) -> Result<(), ToolFault>
    ensures ok { OnOk result (Appends (W.contents writer.old) (W.contents writer.new) (open_fault_text name.now)) }
    ensures err { OnErr result (AppendsPart (W.contents writer.old) (W.contents writer.new)
        (open_fault_text name.now)) }
    ensures fault { IfErr result (λ fault. fault ≡ ToolFault.Write) }
{
    write_around(b"tltool: cannot open ", name, b"\n", writer)
}

/// Writes the line for standard error if a file of this name changed between its two readings. The only fault is
/// `Write`.
pub fn write_changed<W: Write>(name: &str, writer: &mut W) -> Result<(), ToolFault>
    ensures ok { OnOk result (Appends (W.contents writer.old) (W.contents writer.new) (changed_text name.now)) }
    ensures err { OnErr result (AppendsPart (W.contents writer.old) (W.contents writer.new) (changed_text name.now)) }
    ensures fault { IfErr result (λ fault. fault ≡ ToolFault.Write) }
{
    write_around(b"tltool: ", name, b" changed while it was read\n", writer)
}

/// Writes the line for standard error if a file of this name can be read only once, such as a pipe. The only fault is
/// `Write`.
pub fn write_once<W: Write>(name: &str, writer: &mut W) -> Result<(), ToolFault>
    ensures ok { OnOk result (Appends (W.contents writer.old) (W.contents writer.new) (once_text name.now)) }
    ensures err { OnErr result (AppendsPart (W.contents writer.old) (W.contents writer.new) (once_text name.now)) }
    ensures fault { IfErr result (λ fault. fault ≡ ToolFault.Write) }
{
    write_around(
        b"tltool: ",
        name,
        b" can't be read twice, as explain does: write it to a file\n",
        writer,
    )
}
