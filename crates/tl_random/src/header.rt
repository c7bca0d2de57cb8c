//! Writes the header of a schedule.

ghost use Rattle.std.specs.Prelude.{◌≡◌, ◌++◌, ◌∷◌, OnOk};
ghost use Rattle.std.specs.Fmt.{decimal};
ghost use Rattle.tl_schedule.specs.statement.Schedule.{clients_text, schedule_line};

use itoa::Buffer;
use std::alloc::AllocError;
use tl_engine::trace_header::{append_version, level_word};
use tl_params::config::{ClientConfig, Config};
use tl_params::header::Version;

/// Appends a byte and a number in decimal.
fn append_behind(byte: u8, number: u64, out: &mut Vec<u8>) -> Result<(), AllocError>
    ensures { OnOk result (out.new.items ≡ out.old.items ++ (byte ∷ decimal number)) }
{
    let mut digits = Buffer::new();
    out.push(byte)?;
    out.extend_from_slice(digits.format(number).as_bytes())
}

/// Appends the clients, each after a space.
fn append_clients(clients: &[ClientConfig], out: &mut Vec<u8>) -> Result<(), AllocError>
    ensures { OnOk result (out.new.items ≡ out.old.items ++ clients_text clients.now) }
{
    for client in clients {
        out.extend_from_slice(b" ")?;
        out.extend_from_slice(level_word(client.level).as_bytes())?;
        append_behind(b':', u64::from(client.sources), out)?;
    }
    Ok(())
}

/// Appends the header of a schedule, with its LF.
pub(crate) fn append_schedule_header(
    version: Version,
    config: &Config,
    out: &mut Vec<u8>,
) -> Result<(), AllocError>
    ensures { OnOk result (out.new.items ≡ out.old.items
        ++ schedule_line version config.now.blocks config.now.trackers config.now.clients.items) }
{
    out.extend_from_slice(b"tlsched ")?;
    append_version(version, out)?;
    append_behind(b' ', u64::from(config.blocks), out)?;
    append_behind(b' ', u64::from(config.trackers), out)?;
    append_clients(config.clients.as_slice(), out)?;
    out.extend_from_slice(b"\n")
}
