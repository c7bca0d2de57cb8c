//! Texts for C.

ghost use Rattle.std.specs.Prelude.{◌≡◌};
ghost use Rattle.tl_pictures.specs.statement.Written.{IsWritten, code_text};

/// Writes as much of a text as fits, and returns the number of bytes written.
pub fn write_text(text: &[u8], into: &mut [u8]) -> usize
    ensures { IsWritten text.now into.old into.new result }
{
    let count = text.len().min(into.len());
    into[..count].copy_from_slice(&text[..count]);
    count
}

/// A text for the code of an answer; empty for another number.
pub fn text_of(code: u8) -> &'static str
    ensures { result.now ≡ code_text code }
{
    match code {
        0 => "done",
        1 => "the beat breaks a rule",
        2 =>
            "an argument is out of range, or the handle is empty or not yet freed; nothing changed",
        3 => "there is no memory; nothing changed",
        4 => "an earlier beat broke a rule",
        5 => "no beat waits, or no copy is held; nothing changed",
        6 => "more blocks, sources or sinks than can be numbered; nothing changed",
        _ => "",
    }
}
