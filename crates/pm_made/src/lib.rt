//! What a commit puts into the folder, of an append and of a compaction: its files, in the order in which they are
//! created, and the text of its snapshot. The laws speak of fences too, and `make` doesn't take one yet.
//!
//! `make` is told the table as the newest snapshot has it, who commits and when, and what for: rows are appended, or
//! runs are compacted (`specs/Intent.antt`). It makes a delta of that, which says which live files go and which come
//! (`specs/Delta.antt`): an append makes its files of rows at each try, a data file of each group and then a changelog
//! file of each that has a log, and a compaction's were created before any try, so that its plan has their entries
//! alone. Then come a manifest of all live entries where the newest snapshot has many manifests, a manifest of the
//! delta and one of changelog files, where there are any, and the lists of them (`specs/Files.antt`);
//! `specs/Snapshot.antt` has what the snapshot is. It is refused where its base is at most the fence, where a file that
//! it takes away isn't live any more, and where a limit would be exceeded (`specs/Refusals.antt`); changelog files are
//! never live, so no limit counts them. It calls no store, so a commit that lost is made anew from the snapshot that
//! won.
//! `src/laws.rt` has what a commit that is published means, whatever it is for (`specs/Commit.antt`).
#![tactic(auto)]

mod data;
mod intent;
mod laws;
mod limits;
mod making;
mod manifests;
mod newest;
mod numbers;
mod removed;
mod snapshot;

pub use intent::{Intent, Plan};
pub use laws::{commit_law, made_law, own_files_law};
pub use making::make;
pub use newest::{Author, Made, Newest};
pub use snapshot::ListNames;
