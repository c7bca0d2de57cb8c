//! The facts that the types of operations give.

ghost use Rattle.std.specs.Prelude.{◌≡◌, length};
ghost use Rattle.tl_coherence.specs.statement.Headline.{IsTypedOp};

use tl_burst::message::Message;
use tl_client::operation::Op;

/// A block has 64 bytes.
fn prove_long(block: &[u8; 64])
    ensures { length block.now ≡ 64 }
{}

/// An operation's data are 64 bytes.
pub fn prove_typed<const W: usize>(operation: &Op<W>)
    ensures { IsTypedOp operation.now }
{
    match operation {
        Op::AcquireWhole { bytes, .. } => prove_long(bytes),
        Op::Access(Message::A(message)) => prove_long(&message.payload),
        _ => {}
    }
}
