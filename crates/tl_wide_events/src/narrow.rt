//! The commit that a commit of a wide trace becomes.

ghost use Rattle.std.specs.Prelude.{ℕ, ◌≡◌, ◌%◌, ◌/◌, IfOk, IfSome};
ghost use Rattle.tl_events.specs.statement.CommitLine.{IsCommit};
ghost use Rattle.tl_wide.specs.statement.Naming.{WideTrace, in_block};
ghost use Rattle.tl_wide.specs.statement.Narrowing.{Follows};
ghost use Rattle.tl_wide_events.specs.statement.Narrowing.{IsCommitNarrowed};
ghost use Rattle.tl_wide_events.specs.statement.WideCommitLine.{IsWideCommit};

use crate::commit::WideCommit;
use std::alloc::AllocError;
use tl_beat::beat::Link;
use tl_events::commit::Commit;
use tl_wide::narrow::Narrower;

/// The address in the block of another, at the place of `address` in its own block.
fn in_block_of(other: u32, address: u64) -> u32
    ensures place { result % 64 ≡ address % 64 }
    ensures block { result / 64 ≡ other / 64 }
{
    (other / 64) * 64 + (address % 64) as u32
}

/// The commit that the next commit of a wide trace becomes: that at the number of its block. `None` if no number is left
/// for the block. The error means that there is no memory left. In both cases nothing changes.
pub fn narrow_commit(
    narrower: &mut Narrower,
    link: Link,
    commit: WideCommit,
) -> Result<Option<Commit>, AllocError>
    ensures valid { IsWideCommit commit → IfOk result (λ narrowed. IfSome narrowed IsCommit) }
    ensures narrowed { (w : ℕ) (t : WideTrace w) → Follows narrower.old t →
        IsCommitNarrowed link commit t result narrower.new }
{
    let address = commit.address();
    let Some(named) = narrower.message(link, address, 0)? else {
        return Ok(None);
    };
    Ok(Some(commit.at(in_block_of(named.address, address))))
}
