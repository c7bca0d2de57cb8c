//! The heads of rows whose bins are one after another.

ghost use Rattle.std.specs.Prelude.{◌≡◌, ◌++◌, IfOk, OnOk, option_map};
ghost use Rattle.tl_cover.specs.statement.Messages;
ghost use Rattle.tl_cover.specs.statement.Names;
ghost use Rattle.tl_tables.specs.code.Walk;
ghost use Rattle.tl_tables.specs.statement.Layout;

use std::alloc::{AllocError, Global};
use tl_cover::message::MessageKind;
use tl_cover::name::append_detail;
use tl_cover::situation::{Bytes, Pending, Situation};

/// The name of the param of a kind of message, if it has one.
fn param_name(kind: MessageKind) -> Option<&'static str>
    ensures { option_map (λ s. s.now) result ≡ Names.param_of (Messages.fields kind) }
{
    kind.fields()?.0.name()
}

/// Appends channel, opcode and param of a kind of message.
fn append_kind(kind: MessageKind, head: &mut Vec<u8>) -> Result<(), AllocError>
    ensures { OnOk result (head.new.items ≡ head.old.items ++ Layout.kind_head kind) }
{
    head.extend_from_slice(kind.letter().as_bytes())?;
    head.push(b'-')?;
    head.extend_from_slice(kind.opcode_name().as_bytes())?;
    append_detail(param_name(kind), head)
}

/// Appends the head of the accesses of so many bytes.
fn append_access(bytes: Bytes, head: &mut Vec<u8>) -> Result<(), AllocError>
    ensures { OnOk result (head.new.items ≡ head.old.items ++ Layout.access_head bytes) }
{
    head.extend_from_slice(b"access-")?;
    head.extend_from_slice(bytes.name().as_bytes())?;
    head.extend_from_slice(b"-at")
}

/// Appends the head of the row of a kind of messages that can be pending.
fn append_pending(kind: Pending, head: &mut Vec<u8>) -> Result<(), AllocError>
    ensures { OnOk result (head.new.items ≡ head.old.items ++ Layout.pending_head kind) }
{
    head.extend_from_slice(b"pending-")?;
    head.extend_from_slice(kind.name().as_bytes())
}

/// Appends the head of the row that begins with a bin.
fn append_head(bin: Situation, head: &mut Vec<u8>) -> Result<(), AllocError>
    ensures { OnOk result (head.new.items ≡ head.old.items ++ Walk.head_of bin) }
{
    match bin {
        Situation::Sent(kind) => append_kind(kind, head),
        Situation::Aligned(bytes, _) => append_access(bytes, head),
        Situation::Among(kind, _) => append_pending(kind, head),
        _ => head.extend_from_slice(b"waited"),
    }
}

/// The head of the row that begins with a bin.
pub fn head_of(alloc: Global, bin: Situation) -> Result<Vec<u8>, AllocError>
    ensures { IfOk result (λ head. head.items ≡ Walk.head_of bin) }
{
    let mut head = Vec::new(alloc);
    append_head(bin, &mut head)?;
    Ok(head)
}
