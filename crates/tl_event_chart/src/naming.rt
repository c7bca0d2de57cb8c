//! The names of blocks, sources and sinks as a trace of wide beats has them.

ghost use Rattle.std.specs.Prelude.{◌<◌};

use std::alloc::{AllocError, Global};
use tl_beat::beat::{Beat, Link};
use tl_chart::names::{NameTable, source_key};
use tl_params::key::block_at;
use tl_wide::beat::WideBeat;

/// A table without names. A beat with data becomes this many.
pub fn new_table(alloc: Global, parts: u8) -> NameTable {
    NameTable {
        blocks: Vec::new(alloc),
        sources: Vec::new(alloc),
        sinks: Vec::new(alloc),
        parts,
    }
}

/// Keeps the name of a block under its number.
fn name_block(names: &mut Vec<u64>, number: u32, name: u64) -> Result<(), AllocError> {
    let place = number as usize;
    if place >= names.len() {
        names.resize(place + 1, 0)?;
    }
    names[place] = name;
    Ok(())
}

/// Keeps the name of a source or a sink at a place.
fn name_id(names: &mut Vec<u16>, place: usize, name: u16) -> Result<(), AllocError>
    requires { place < 65536 }
{
    if place >= names.len() {
        names.resize(place + 1, 0)?;
    }
    names[place] = name;
    Ok(())
}

/// Keeps the names of the block of these numbers and of the source of a message: its address, and the source's name.
fn name_message(
    table: &mut NameTable,
    link: Link,
    block: u32,
    source: u8,
    address: u64,
    name: u16,
) -> Result<(), AllocError> {
    name_block(&mut table.blocks, block, address / 64)?;
    name_id(&mut table.sources, source_key(link, source), name)
}

/// Keeps the names of a wide beat under the numbers that a part of it has.
pub fn name_part<const W: usize, const P: usize>(
    table: &mut NameTable,
    link: Link,
    beat: &WideBeat<W>,
    part: &Beat<P>,
) -> Result<(), AllocError> {
    match (beat, part) {
        (WideBeat::A(x), Beat::A(y)) => {
            name_message(
                table,
                link,
                block_at(y.address),
                y.source,
                x.address,
                x.source,
            )
        }
        (WideBeat::B(x), Beat::B(y)) => {
            name_message(
                table,
                link,
                block_at(y.address),
                y.source,
                x.address,
                x.source,
            )
        }
        (WideBeat::C(x), Beat::C(y)) => {
            name_message(
                table,
                link,
                block_at(y.address),
                y.source,
                x.address,
                x.source,
            )
        }
        (WideBeat::D(x), Beat::D(y)) => {
            name_id(&mut table.sources, source_key(link, y.source), x.source)?;
            name_id(&mut table.sinks, usize::from(y.sink), x.sink)
        }
        (WideBeat::E(x), Beat::E(y)) => name_id(&mut table.sinks, usize::from(y.sink), x.sink),
        _ => Ok(()),
    }
}
