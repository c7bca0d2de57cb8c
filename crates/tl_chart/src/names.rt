//! The names of blocks, sources and sinks in a chart.

ghost use Rattle.std.specs.Prelude.{◌≡◌, ◌++◌, ◌+◌, ◌*◌, slice_index_or, OnOk};
ghost use Rattle.tl_chart.specs.statement.Names.{beats_named, block_name, sink_name, source_name};

use crate::text::{append_block, append_byte, append_long_block, append_two_bytes};
use std::alloc::AllocError;
use tl_beat::beat::Link;

/// The names that a trace has, by the numbers that its beats have in their places.
#[derive(Drop)]
pub struct NameTable {
    /// The blocks: addresses by 64, as they were written.
    pub blocks: Vec<u64>,
    /// The sources of the links: that of a link and a number is at 256 times the link and the number.
    pub sources: Vec<u16>,
    pub sinks: Vec<u16>,
    /// The number of beats that a beat with data of the trace becomes.
    pub parts: u8,
}

/// The names in a chart.
#[derive(Drop)]
pub enum Names {
    /// Those of the beats.
    Own,
    /// Those of a table.
    Written(NameTable),
}

/// The name of a block under its number; 0 if there is none.
fn block_at(names: &[u64], number: u32) -> u64
    ensures { result ≡ slice_index_or names.now number 0 }
{
    match names.get(number as usize) {
        None => 0,
        Some(name) => *name,
    }
}

/// The name of a source or a sink under its number; 0 if there is none.
fn id_at(names: &[u16], number: usize) -> u16
    ensures { result ≡ slice_index_or names.now number 0 }
{
    match names.get(number) {
        None => 0,
        Some(name) => *name,
    }
}

/// The place of a source's name.
pub fn source_key(link: Link, source: u8) -> usize
    ensures { result ≡ 256 * link.0 + source }
{
    256 * usize::from(link.0) + usize::from(source)
}

impl Names {
    #[tactic(auto, unfolding(crate::specs::statement::Names::block_name))]
    /// Appends the name of a block.
    pub fn append_block(&self, block: u32, out: &mut Vec<u8>) -> Result<(), AllocError>
        ensures { OnOk result (out.new.items ≡ out.old.items ++ block_name self.now block) }
    {
        match self {
            Names::Own => append_block(block, out),
            Names::Written(table) => append_long_block(block_at(&table.blocks, block), out),
        }
    }

    #[tactic(auto, unfolding(crate::specs::statement::Names::source_name))]
    /// Appends the name of a source of a link.
    pub fn append_source(&self, link: Link, source: u8, out: &mut Vec<u8>) -> Result<(), AllocError>
        ensures { OnOk result (out.new.items ≡ out.old.items ++ source_name self.now link.0 source) }
    {
        match self {
            Names::Own => append_byte(source, out),
            Names::Written(table) => {
                append_two_bytes(id_at(&table.sources, source_key(link, source)), out)
            }
        }
    }

    #[tactic(auto, unfolding(crate::specs::statement::Names::sink_name))]
    /// Appends the name of a sink.
    pub fn append_sink(&self, sink: u8, out: &mut Vec<u8>) -> Result<(), AllocError>
        ensures { OnOk result (out.new.items ≡ out.old.items ++ sink_name self.now sink) }
    {
        match self {
            Names::Own => append_byte(sink, out),
            Names::Written(table) => {
                append_two_bytes(id_at(&table.sinks, usize::from(sink)), out)
            }
        }
    }

    /// The number of beats of the trace that have become this many of one message.
    pub fn beats_of(&self, beats: u8) -> u8
        ensures { result ≡ beats_named self.now beats }
    {
        match self {
            Names::Own => beats,
            Names::Written(table) => (beats / table.parts.max(1)).max(1),
        }
    }
}
