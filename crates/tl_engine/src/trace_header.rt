//! Begins to play a schedule: its header.

ghost use Rattle.std.specs.Prelude.{◌≡◌, ◌++◌, [], map, false, true, IfOk, OnOk, None};
ghost use Rattle.tl_beat.specs.statement.Width.{IsWidth};
ghost use Rattle.tl_params.specs.statement.Config.{config_fault};
ghost use Rattle.tl_params.specs.statement.Header.{level_text, profile_text, version_text, width_text};
ghost use Rattle.tl_engine.specs.statement.CommitsHeader.{commits_header_line, level_shown, levels_shown, liberties_text};
ghost use Rattle.tl_engine.specs.statement.Played.{header_text};
ghost use Rattle.tl_engine.specs.statement.PlayableWorld.{HasHappened};
ghost use Rattle.tl_lines.specs.statement.Trace.{header_line};

use std::alloc::{AllocError, Global};
use tl_client::any::AnyClient;
use tl_command::command::RunForm;
use tl_manager::bits::BitDirectory;
use tl_params::header::Version;
use tl_params::width::Width;
use tl_rules::config::{ClientConfig, Config};
use tl_rules::level::Level;
use tl_rules::profile::Profile;
use tl_world::agents::agents_of;
use tl_world::world::World;

fn width_word(width: Width) -> &'static str
    ensures { result.now ≡ width_text width }
{
    match width {
        Width::Four => "4",
        Width::Eight => "8",
        Width::Sixteen => "16",
    }
}

fn profile_word(profile: Profile) -> &'static str
    ensures { result.now ≡ profile_text profile }
{
    match profile {
        Profile::One => "1",
        Profile::Two => "2",
    }
}

/// Appends the version of a header, of a trace or of a schedule.
pub fn append_version(version: Version, out: &mut Vec<u8>) -> Result<(), AllocError>
    ensures { OnOk result (out.new.items ≡ out.old.items ++ version_text version) }
{
    match version {
        Version::First => out.extend_from_slice(b"1"),
        Version::Second(width) => {
            out.extend_from_slice(b"2 ")?;
            out.extend_from_slice(width_word(width).as_bytes())
        }
        Version::Third(width, profile) => {
            out.extend_from_slice(b"3 ")?;
            out.extend_from_slice(width_word(width).as_bytes())?;
            out.extend_from_slice(b" ")?;
            out.extend_from_slice(profile_word(profile).as_bytes())
        }
    }
}

/// The name of a level in a header.
pub fn level_word(level: Level) -> &'static str
    ensures { result.now ≡ level_text level }
{
    match level {
        Level::UL => "UL",
        Level::UH => "UH",
        Level::C => "C",
    }
}

/// The name of a level in a header, with the mark if all stores of the clients of level C are in the trace.
fn shown_word(marked: bool, level: Level) -> &'static str
    ensures { result.now ≡ level_shown marked level }
{
    match level {
        Level::C if marked => "C+",
        level => level_word(level),
    }
}

/// Appends the levels of clients, each after a space, with their marks.
fn append_levels(
    marked: bool,
    clients: &[ClientConfig],
    out: &mut Vec<u8>,
) -> Result<(), AllocError>
    ensures { OnOk result (out.new.items
        ≡ out.old.items ++ levels_shown marked (map (λ client. client.level) clients.now)) }
{
    for client in clients {
        out.push(b' ')?;
        out.extend_from_slice(shown_word(marked, client.level).as_bytes())?;
    }
    Ok(())
}

/// Appends the header of a trace of these clients.
fn append_trace_header(
    version: Version,
    clients: &[ClientConfig],
    out: &mut Vec<u8>,
) -> Result<(), AllocError>
    ensures { OnOk result (out.new.items
        ≡ out.old.items ++ header_line version (map (λ client. client.level) clients.now)) }
{
    out.extend_from_slice(b"tltrace ")?;
    append_version(version, out)?;
    append_levels(false, clients, out)?;
    out.push(b'\n')?;
    Ok(())
}

/// The word for the liberties of a profile.
fn liberties_word(profile: Profile) -> &'static str
    ensures { result.now ≡ liberties_text profile }
{
    match profile {
        Profile::One => "none",
        Profile::Two => "writer",
    }
}

/// Appends the header of a trace of these clients with their stores and loads. Memory was zero before it.
fn append_commits_header(
    version: Version,
    clients: &[ClientConfig],
    out: &mut Vec<u8>,
) -> Result<(), AllocError>
    ensures { OnOk result (out.new.items
        ≡ out.old.items ++ commits_header_line version (map (λ client. client.level) clients.now)) }
{
    out.extend_from_slice(b"tltrace 4 ")?;
    out.extend_from_slice(width_word(version.width()).as_bytes())?;
    out.push(b' ')?;
    out.extend_from_slice(liberties_word(version.profile()).as_bytes())?;
    out.extend_from_slice(b" zero")?;
    append_levels(true, clients, out)?;
    out.push(b'\n')?;
    Ok(())
}

/// Appends the header of the trace, if one is to be written.
pub fn append_header(
    form: RunForm,
    version: Version,
    config: &Config,
    out: &mut Vec<u8>,
) -> Result<(), AllocError>
    ensures { OnOk result (out.new.items ≡ out.old.items ++ header_text form version config.now.clients.items) }
{
    match form {
        RunForm::Outcomes => Ok(()),
        RunForm::Trace => append_trace_header(version, config.clients.as_slice(), out),
        RunForm::TraceWithCommits => {
            append_commits_header(version, config.clients.as_slice(), out)
        }
    }
}

/// A new world of the clients of a configuration, with no events yet.
pub fn world_of<const W: usize>(
    alloc: Global,
    config: Config,
) -> Result<World<W, AnyClient<W>, BitDirectory>, AllocError>
    requires width { IsWidth W }
    requires fits { config_fault config ≡ None }
    ensures { IfOk result (λ world. HasHappened config world []) }
{
    let clients = agents_of(alloc, &config).map_err(|_| AllocError)?;
    let directory = BitDirectory::new(alloc, config.blocks, config.clients.len() as u8)?;
    match World::new(alloc, config, clients, directory) {
        Ok(world) => Ok(world),
        Err(_) => Err(AllocError),
    }
}
