//! Whether a line spells an event of a world.

ghost use Rattle.std.specs.Prelude.{◌≡◌, ◌&&◌, ◌||◌, IfSome, IsTrue, nat_le, not, slice_get};
ghost use Rattle.tl_beat.specs.statement.Width.{IsWidth};
ghost use Rattle.tl_schedule.specs.statement.EventLine.{SpellsEvent};
ghost use Rattle.tl_client.specs.statement.Ask.{breaks_b4, is_formed, op_block};
ghost use Rattle.tl_coherence.specs.statement.System.{terms_at};
ghost use Rattle.tl_random.specs.statement.Random.{has_operation, is_event_of};

use tl_client::check::check;
use tl_client::operation::Op;
use tl_coherence::event::Event;
use tl_params::config::{ClientConfig, Config};
use tl_params::level::Level;
use tl_schedule::line::{Line, read_event};

/// Whether a level has an operation, and it is well formed and inside a map of this many blocks.
fn level_has<const W: usize>(level: Level, blocks: u16, operation: &Op<W>) -> bool
    requires { IsWidth W }
    ensures { result ≡ (not (breaks_b4 level operation.now)
        && not (nat_le blocks (op_block operation.now) || not (is_formed level operation.now))) }
{
    check(level, blocks, operation).is_none()
}

/// The client of this number in a configuration, if there is one.
fn client_of(config: &Config, client: u8) -> Option<ClientConfig>
    ensures { result ≡ slice_get config.now.clients.items client }
{
    let clients = config.clients.as_slice();
    clients.get(usize::from(client)).copied()
}

/// Whether a client of a configuration has an operation.
fn client_has<const W: usize>(config: &Config, client: u8, operation: &Op<W>) -> bool
    requires { IsWidth W }
    ensures { result ≡ has_operation (terms_at config.now client) operation.now }
{
    match client_of(config, client) {
        None => false,
        Some(terms) => level_has(terms.level, config.blocks, operation),
    }
}

/// Whether an event is one of a world with this configuration.
fn is_event_of<const W: usize>(config: &Config, event: &Event<W>) -> bool
    requires { IsWidth W }
    ensures { result ≡ is_event_of config.now event.now }
{
    match event {
        Event::Ask { client, operation } => client_has(config, *client, operation),
        Event::Deliver { link, .. } => usize::from(link.0) < config.clients.as_slice().len(),
    }
}

/// The event that a line spells, if it is one of a world with this configuration.
pub(crate) fn event_in<const W: usize>(config: &Config, line: &[u8]) -> Option<Event<W>>
    requires { IsWidth W }
    ensures spelled { IfSome result (λ event. SpellsEvent line.now event) }
    ensures of_world { IfSome result (λ event. IsTrue (is_event_of config.now event)) }
{
    match read_event(line) {
        Ok(Line::Event(event)) => {
            if is_event_of(config, &event) {
                Some(event)
            } else {
                None
            }
        }
        _ => None,
    }
}
