//! The subject of a verdict on a beat.

ghost use Rattle.tl_explain.specs.statement.Reasons.{IsSubject};

use tl_beat::beat::{Beat, Link};
use tl_explain::turns::Subject;
use tl_params::key::block_at;

/// The subject of a verdict on a beat. The block is that of the request that a Grant answers.
pub fn subject_of<const W: usize>(link: Link, beat: &Beat<W>, block: Option<u32>) -> Subject
    ensures { IsSubject result link beat.now }
{
    let (block, source, sink) = match beat {
        Beat::A(x) => (block_at(x.address), x.source, 0),
        Beat::B(x) => (block_at(x.address), x.source, 0),
        Beat::C(x) => (block_at(x.address), x.source, 0),
        Beat::D(x) => (block.unwrap_or(0), x.source, x.sink),
        Beat::E(x) => (0, 0, x.sink),
    };
    Subject {
        link,
        block,
        source,
        sink,
    }
}
