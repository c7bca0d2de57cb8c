//! Adds counts.

ghost use Rattle.std.specs.Prelude.{◌≡◌, IfOk};
ghost use Rattle.tl_tables.specs.statement.Counts;

use std::alloc::AllocError;

/// The sum of two counts, either of which may be missing. A sum above 2^64 - 1 is an error.
pub fn cell_sum(sum: Option<u64>, cell: Option<u64>) -> Result<Option<u64>, AllocError>
    ensures { IfOk result (λ both. both ≡ Counts.cell_sum sum cell) }
{
    match (sum, cell) {
        (None, other) => Ok(other),
        (Some(n), None) => Ok(Some(n)),
        (Some(n), Some(m)) => Ok(Some(n.checked_add(m).ok_or(AllocError)?)),
    }
}

/// The count at a place; None if there is none.
pub(crate) fn cell_at(counts: &[Option<u64>], place: usize) -> Option<u64>
    ensures { result ≡ Counts.cell_at counts.now place }
{
    match counts.get(place) {
        None => None,
        Some(cell) => *cell,
    }
}
