//! Writes elements and attributes of XML.

ghost use Rattle.std.specs.Prelude.{◌≡◌, ◌++◌, OnOk, codes};
ghost use Rattle.std.specs.Fmt.{decimal};
ghost use Rattle.tl_sign_off.specs.statement.Junit.{attribute, element, empty_element, escaped, escaped_byte};

use itoa::Buffer;
use std::alloc::AllocError;

/// Appends a byte, escaped for the value of an attribute.
fn append_escaped_byte(byte: u8, out: &mut Vec<u8>) -> Result<(), AllocError>
    ensures { OnOk result (out.new.items ≡ out.old.items ++ escaped_byte byte) }
{
    match byte {
        b'"' => out.extend_from_slice(b"&quot;"),
        b'&' => out.extend_from_slice(b"&amp;"),
        b'<' => out.extend_from_slice(b"&lt;"),
        _ => Ok(out.push(byte)?),
    }
}

/// Appends the value of an attribute.
fn append_escaped(value: &[u8], out: &mut Vec<u8>) -> Result<(), AllocError>
    ensures { OnOk result (out.new.items ≡ out.old.items ++ escaped value.now) }
{
    for byte in value {
        append_escaped_byte(*byte, out)?;
    }
    Ok(())
}

/// Appends ` NAME="VALUE"`.
#[tactic(auto, unfolding(crate::specs::statement::Junit::attribute))]
pub fn append_attribute(name: &[u8], value: &[u8], out: &mut Vec<u8>) -> Result<(), AllocError>
    ensures { OnOk result (out.new.items ≡ out.old.items ++ attribute name.now value.now) }
{
    out.push(b' ')?;
    out.extend_from_slice(name)?;
    out.extend_from_slice(b"=\"")?;
    append_escaped(value, out)?;
    out.push(b'"')?;
    Ok(())
}

/// Appends an attribute whose value is a number.
pub fn append_number(name: &[u8], number: u64, out: &mut Vec<u8>) -> Result<(), AllocError>
    ensures { OnOk result (out.new.items ≡ out.old.items ++ attribute name.now (decimal number)) }
{
    let mut digits = Buffer::new();
    append_attribute(name, digits.format(number).as_bytes(), out)
}

/// Appends an element without content, on one line.
#[tactic(auto, unfolding(crate::specs::statement::Junit::empty_element))]
pub fn append_empty_element(
    name: &[u8],
    attributes: &[u8],
    out: &mut Vec<u8>,
) -> Result<(), AllocError>
    ensures { OnOk result (out.new.items ≡ out.old.items ++ empty_element name.now attributes.now) }
{
    out.push(b'<')?;
    out.extend_from_slice(name)?;
    out.extend_from_slice(attributes)?;
    out.extend_from_slice(b"/>\n")?;
    Ok(())
}

/// Appends an element with content, on several lines.
#[tactic(auto, unfolding(crate::specs::statement::Junit::element))]
pub fn append_element(
    name: &[u8],
    attributes: &[u8],
    content: &[u8],
    out: &mut Vec<u8>,
) -> Result<(), AllocError>
    ensures { OnOk result (out.new.items ≡ out.old.items ++ element name.now attributes.now content.now) }
{
    out.push(b'<')?;
    out.extend_from_slice(name)?;
    out.extend_from_slice(attributes)?;
    out.extend_from_slice(b">\n")?;
    out.extend_from_slice(content)?;
    out.extend_from_slice(b"</")?;
    out.extend_from_slice(name)?;
    out.extend_from_slice(b">\n")?;
    Ok(())
}
