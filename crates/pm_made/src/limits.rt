//! Why a commit is refused before a file is made.

ghost use Rattle.std.specs.Prelude.{◌≡◌, ◌⊎◌, ℕ, ◌+◌, ◌-◌, true, false, IfOk, IfErr, OnOk};
ghost use Rattle.pm_values.specs.declared.refusal.Refusal.TheVariants.{Memory};
ghost use Rattle.pm_made.specs.Refusals.{above_files, above_id, fence_of, is_fenced, live_count, no_files, no_id};
ghost use Rattle.pm_made.specs.Refusals.{passed};

use crate::intent::Intent;
use crate::newest::{Author, Newest};
use pm_base::Txt;
use pm_snapshot::Snapshot;
use pm_values::Refusal;
use std::alloc::{AllocError, Global};

/// The greatest number of live files.
const MOST_LIVE: usize = 10_000;

/// The greatest id of a snapshot.
const MOST_ID: u64 = 9_007_199_254_740_991;

/// The fence of a snapshot, that of the origin where there is none.
pub(crate) fn fence_of(snapshot: &Option<Snapshot>) -> i64
    ensures { result ≡ fence_of snapshot.now }
{
    match snapshot {
        Some(snapshot) => snapshot.fence,
        None => -1,
    }
}

/// Judges the fence.
pub(crate) fn judge_fence(newest: &Newest, author: &Author) -> Result<(), Refusal>
    ensures ok { OnOk result (is_fenced newest.now author.now ≡ false) }
    ensures err { IfErr result (λ e. (is_fenced newest.now author.now ≡ true) × (e ≡ passed newest.now author.now)) }
{
    let fence = fence_of(&newest.snapshot);
    if i128::from(author.base) <= i128::from(fence) {
        return Err(Refusal::Fenced {
            base: author.base,
            fence,
        });
    }
    Ok(())
}

/// How many files go, and how many come.
fn file_changes(intent: &Intent) -> (usize, usize)
    ensures { (live : ℕ) → live_count live intent.now ≡ live - result.0 + result.1 }
{
    match intent {
        Intent::Append { batch } => (0, batch.group_count()),
        Intent::Compact { plan } => (plan.removed.len(), plan.added.len()),
        Intent::Fence { .. } => (0, 0),
    }
}

/// Judges how many files are live after the commit.
pub(crate) fn judge_files(alloc: Global, live: usize, intent: &Intent) -> Result<(), Refusal>
    ensures ok { OnOk result (above_files (live_count live intent.now) ≡ false) }
    ensures err { IfErr result (λ e. (e ≡ Memory)
        ⊎ ((above_files (live_count live intent.now) ≡ true) × (e ≡ no_files))) }
{
    let (less, more) = file_changes(intent);
    let left = live.saturating_sub(less);
    if left > MOST_LIVE || more > MOST_LIVE - left {
        return Err(Refusal::Limit {
            which: Txt::from_str(alloc, "live-files")?,
            number: MOST_LIVE as u64,
        });
    }
    Ok(())
}

/// The id after the newest.
pub(crate) fn next_id(alloc: Global, newest: u64) -> Result<u64, Refusal>
    ensures ok { IfOk result (λ id. (id ≡ newest + 1) × (above_id newest ≡ false)) }
    ensures err { IfErr result (λ e. (e ≡ Memory) ⊎ ((above_id newest ≡ true) × (e ≡ no_id))) }
{
    if newest >= MOST_ID {
        return Err(Refusal::Limit {
            which: Txt::from_str(alloc, "snapshot-id")?,
            number: MOST_ID,
        });
    }
    Ok(newest + 1)
}
