//! The clients of a configuration.

ghost use Rattle.std.specs.Prelude.{◌≡◌, IfOk, IfErr, None};
ghost use Rattle.tl_params.specs.statement.Config.{config_fault};
ghost use Rattle.tl_beat.specs.statement.Width.{IsWidth};
ghost use Rattle.tl_client.specs.code.KnowsAny.{KnowsAny, any_terms};
ghost use Rattle.tl_world.specs.statement.World.{AreReady, IsFault};

use std::alloc::{AllocError, Global};
use tl_client::any::AnyClient;
use tl_rules::config::{Config, NewFault};

/// New clients of a configuration. The error is the first limit that it breaks, in the order N1 to N4, or `Memory`.
pub fn agents_of<const W: usize>(
    alloc: Global,
    config: &Config,
) -> Result<Vec<AnyClient<W>>, NewFault>
    requires { IsWidth W }
    ensures ok { IfOk result (λ agents. AreReady {w = W} KnowsAny any_terms config.now agents.items) }
    ensures fits { IfOk result (λ agents. config_fault config.now ≡ None) }
    ensures err { IfErr result (λ fault. IsFault config.now fault) }
{
    config.check()?;
    let mut agents = Vec::new(alloc);
    for client in config.clients.as_slice() {
        let agent = AnyClient::new(alloc, *client, config.blocks, config.profile)?;
        match agents.push(agent) {
            Ok(()) => {}
            Err(refused) => return Err(AllocError::from(refused).into()),
        }
    }
    Ok(agents)
}
