//! The pending Probes of a link, by block.

ghost use Rattle.std.specs.Prelude.{ℕ, OnOk, Some, None, ◌≡◌, ◌<◌, ◌^◌, ◌==◌, ◌&&◌, if◌then◌else◌};
ghost use Rattle.tl_burst.specs.statement.Messages.{History};
ghost use Rattle.tl_cover.specs.code.Past.{AreApart, asked_next, found};
ghost use Rattle.tl_params.specs.declared.key.Key.TheVariants.{ProbeOf};
ghost use Rattle.tl_rules.specs.statement.History.{closes, opens};

use crate::scene::ProbeAt;
use std::alloc::AllocError;
use tl_beat::beat::Beat;
use tl_params::key::block_at;
use tl_rules::kind::{is_probe, is_probe_ack};

/// A block, and its pending Probe.
#[derive(Clone, Copy)]
pub struct Asked {
    pub block: u32,
    pub probe: ProbeAt,
}

/// The pending Probe of a block.
pub fn found(all: &Vec<Asked>, block: u32) -> Option<ProbeAt>
    ensures { result ≡ found block all.now.items }
{
    all.iter()
        .find(|asked| asked.block == block)
        .map(|asked| asked.probe)
}

/// Removes the Probe of a block.
fn answer(all: &mut Vec<Asked>, block: u32)
    ensures found { (k : ℕ) → found k all.new.items ≡ (if block == k then None else found k all.old.items) }
    ensures apart { AreApart all.old.items → AreApart all.new.items }
{
    all.retain(|asked| asked.block != block);
}

/// Adds the Probe of a block, in place of any earlier one.
fn ask(all: &mut Vec<Asked>, asked: Asked) -> Result<(), AllocError>
    requires { asked.block < 2 ^ 26 }
    ensures found { OnOk result ((k : ℕ) → found k all.new.items
        ≡ (if asked.block == k then Some asked.probe else found k all.old.items)) }
    ensures apart { OnOk result (AreApart all.old.items → AreApart all.new.items) }
{
    answer(all, asked.block);
    all.push(asked)?;
    Ok(())
}

/// Notes the Probe that begins with a beat in this line, and removes the one whose answer ends with it.
pub fn note_probe<const W: usize>(
    all: &mut Vec<Asked>,
    line: u64,
    first: bool,
    last: bool,
    beat: &Beat<W>,
) -> Result<(), AllocError>
    ensures found { OnOk result ((k : ℕ) (h : History W) → found k all.new.items
        ≡ asked_next beat.now line (first && opens (ProbeOf k) beat.now h)
        (last && closes (ProbeOf k) beat.now h) (found k all.old.items)) }
    ensures apart { OnOk result (AreApart all.old.items → AreApart all.new.items) }
{
    match beat {
        Beat::B(x) if first && is_probe(x.opcode) => ask(
            all,
            Asked {
                block: block_at(x.address),
                probe: ProbeAt {
                    param: x.param,
                    line,
                },
            },
        ),
        Beat::C(x) if last && is_probe_ack(x.opcode) => {
            answer(all, block_at(x.address));
            Ok(())
        }
        _ => Ok(()),
    }
}
