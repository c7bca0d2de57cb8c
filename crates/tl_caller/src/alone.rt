//! Promises of a caller about an Acquire that starts alone.

ghost use Rattle.std.specs.Prelude.{◌≡◌, IfSome, true};
ghost use Rattle.tl_beat.specs.statement.Width.{IsWidth};
ghost use Rattle.tl_coherence.specs.statement.Draining.{grown_to};
ghost use Rattle.tl_world.specs.statement.World.{IsWorld, OnEachLog};
ghost use Rattle.tl_caller.specs.Alone.{IsBroughtAlone};

use tl_client::agent::Agent;
use tl_client::operation::Op;
use tl_client::reply::Reply;
use tl_coherence::event::{Event, Outcome};
use tl_manager::directory::Directory;
use tl_rules::param::Grow;
use tl_rules::perm::Perm;
use tl_world::world::World;

/// Drains the world, asks a client, and drains it again. Returns the permission that the client then holds of a block,
/// if the operation started.
fn ask_alone<const W: usize, A: Agent<W>, D: Directory>(
    world: &mut World<W, A, D>,
    client: u8,
    operation: Op<W>,
    block: u16,
) -> Option<Perm>
    requires { IsWidth W }
    ensures world { IsWorld A.represents A.terms D.perm_of world.old }
    ensures brought { OnEachLog A.represents A.terms D.perm_of world.old (λ config log.
        IfSome result (IsBroughtAlone config client operation.entry block)) }
{
    world.drain();
    match world.step(Event::Ask { client, operation }) {
        Outcome::Replied {
            reply: Reply::Started(_),
        } => {
            world.drain();
            Some(world.held(client, block))
        }
        _ => None,
    }
}

/// The permission that a client holds of a block after an Acquire alone, if that started.
pub fn acquire_alone<const W: usize, A: Agent<W>, D: Directory>(
    world: &mut World<W, A, D>,
    client: u8,
    block: u16,
    grow: Grow,
) -> Option<Perm>
    requires { IsWidth W }
    ensures { OnEachLog A.represents A.terms D.perm_of world.old (λ config log.
        IfSome result (λ held. grown_to config.profile grow held ≡ true)) }
{
    ask_alone(world, client, Op::Acquire { block, grow }, block)
}

/// The permission that a client holds of a block after an AcquireWhole alone, if that started: Trunk.
pub fn write_alone<const W: usize, A: Agent<W>, D: Directory>(
    world: &mut World<W, A, D>,
    client: u8,
    block: u16,
    bytes: [u8; 64],
) -> Option<Perm>
    requires { IsWidth W }
    ensures { IfSome result (λ held. held ≡ Perm.Trunk) }
{
    ask_alone(world, client, Op::AcquireWhole { block, bytes }, block)
}
