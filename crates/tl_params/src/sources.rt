//! The limits on the clients' numbers of sources.

ghost use Rattle.std.specs.Prelude.{◌≡◌};
ghost use Rattle.tl_params.specs.statement.Config.{all_sources_fit};

use crate::config::ClientConfig;

/// Whether each client has 1 to 8 sources.
pub fn sources_fit(clients: &[ClientConfig]) -> bool
    ensures { result ≡ all_sources_fit clients.now }
{
    clients
        .iter()
        .all(|client| 1 <= client.sources && client.sources <= 8)
}
