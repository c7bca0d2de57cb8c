//! The bytes that loads which have begun may bring now.

ghost use Rattle.tl_beat.specs.statement.Width.{IsWidth};
ghost use Rattle.tl_commits.specs.code.Loading as code;

use crate::bringing::with_brought;
use crate::commits::is_piece_loadable;
use crate::copies::is_complete;
use crate::loading::Loading;
use crate::value_table::ValueTable;
use tl_memory::message::either;
use tl_together::judge::Judge;

/// Whether a load is possible now.
fn is_possible<const W: usize>(judge: &Judge<W>, loading: Loading) -> bool
    requires { IsWidth W }
    ensures { code.IsPossible judge.now loading result }
{
    loading.piece.prove_addressed();
    if loading.piece.is_valid() {
        return is_piece_loadable(judge, loading.link, loading.piece);
    }
    false
}

/// The load with the bytes that it may bring now. `complete` says for each link whether all its stores are in the trace.
pub(crate) fn renewed<const W: usize>(
    judge: &Judge<W>,
    table: &ValueTable,
    complete: &Vec<bool>,
    loading: Loading,
) -> Loading
    requires { IsWidth W }
    ensures { code.IsRenewed judge.now table.now complete.now.items loading result }
{
    let known = is_complete(complete, loading.link);
    let now = is_possible(judge, loading);
    let address = loading.piece.address;
    Loading {
        loadable: either(now, loading.loadable),
        values: with_brought(judge, table, known, loading.link, address, loading.values),
        ..loading
    }
}

/// The loads with the bytes that they may bring now.
pub(crate) fn renew<const W: usize>(
    judge: &Judge<W>,
    table: &ValueTable,
    complete: &Vec<bool>,
    loads: &mut Vec<Loading>,
)
    requires { IsWidth W }
    ensures { code.AreRenewed judge.now table.now complete.now.items loads.old.items loads.new.items }
{
    for n in 0..loads.len() {
        loads[n] = renewed(judge, table, complete, loads[n]);
    }
}
