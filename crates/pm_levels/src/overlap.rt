//! Files above level 0 that share keys.

ghost use Rattle.std.specs.Prelude.{◌≡◌, MatchOption, length};
ghost use Rattle.std.specs.List.Sorted.{IsSorted};
ghost use Rattle.pm_levels.specs.Order.{file_cmp};
ghost use Rattle.pm_levels.specs.Overlap.{IsFirstMeeting, IsFree, has_keys, meet};

use pm_values::FileMeta;

/// Where the first file stands that shares a key range with one before it, of files in their order.
pub(crate) fn first_overlap(files: &[FileMeta]) -> Option<usize>
    requires { IsSorted file_cmp files.now }
    ensures { MatchOption result (IsFree files.now (length files.now)) (λ i. IsFirstMeeting files.now i) }
{
    let mut last = 0;
    for i in 1..files.len() {
        if meet(&files[last], &files[i]) {
            return Some(i);
        }
        if has_keys(&files[i]) {
            last = i;
        }
    }
    None
}

/// Whether the files are of one level above 0, and some key lies in the key ranges of both.
fn meet(a: &FileMeta, b: &FileMeta) -> bool
    ensures { result ≡ meet a.now b.now }
{
    a.level == b.level
        && has_keys(a)
        && has_keys(b)
        && a.min_key <= b.max_key
        && b.min_key <= a.max_key
}

/// Whether the file is above level 0, and some key lies in its key range.
fn has_keys(file: &FileMeta) -> bool
    ensures { result ≡ has_keys file.now }
{
    0 < file.level && file.min_key <= file.max_key
}
