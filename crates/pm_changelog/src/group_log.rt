//! The log of a group.

ghost use Rattle.std.specs.Prelude.{◌≡◌, ◌↔◌, [], ◌∷◌, ◌++◌, map, IfOk, IsTrue, OnErr, OnOk};
ghost use Rattle.std.specs.List.{AllByRecursion};
ghost use Rattle.pm_schema.specs.declared.schema.TableSchema.{TableSchema};
ghost use Rattle.pm_model_following.specs.Following.{by_key};
ghost use Rattle.pm_engine.specs.Covers.{row_of};
ghost use Rattle.pm_run.specs.Writing.{HasOwnKey};
ghost use Rattle.pm_changelog.specs.GroupLog.{without_numbers, IsGroupLog, IsNext};

use pm_model_changelog::by_key_law;
use pm_packed::PackedRows;
use pm_values::{Key, Kind, Row, Stamped};
use std::alloc::{AllocError, Global};
use std::marker::Model;

/// What happened to the keys of a group, by rising key, seen as the list of its changes. Its rows are kept packed, so
/// that they are written again at each try of a commit.
pub struct GroupLog {
    pub(crate) rows: PackedRows,
}

impl Drop for GroupLog {
    fn drop(self) {
        let GroupLog { rows } = self;
    }
}

impl Model for GroupLog {
    ghost use Rattle.std.specs.Prelude.{List};
    ghost use Rattle.pm_values.specs.declared.record.Change.{Change};
    ghost use Rattle.pm_changelog.specs.GroupLog.{without_numbers, AreOfLog};

    ghost Value = { List Change };

    ghost view = { λ log. without_numbers log.rows };

    ghost invariant = { λ log. AreOfLog log.rows };
}

impl GroupLog {
    /// The log that tells nothing.
    pub fn none(alloc: Global) -> GroupLog
        ensures { result ≡ [] }
    {
        GroupLog {
            rows: PackedRows::new(alloc),
        }
    }

    /// Whether it tells nothing.
    pub fn is_empty(&self) -> bool
        ensures { IsTrue result ↔ (self.now ≡ []) }
    {
        self.rows.len() == 0
    }

    /// Tells one change more, of a key that isn't below those before. Without memory for it the log stays as it is. Out
    /// of memory is also answered for a row of more values, or longer ones, than packed rows can have.
    pub fn tell(&mut self, key: Key, kind: Kind, row: Row) -> Result<(), AllocError>
        requires next { IsNext self.old key }
        ensures told { OnOk result (self.new ≡ self.old ++ record { key = key; kind = kind; row = row } ∷ []) }
        ensures kept { OnErr result (self.new ≡ self.old) }
    {
        let change = Stamped {
            key,
            seq: 0,
            kind,
            row,
        };
        self.rows.push(&change)
    }
}

/// The log of a group whose table passes its input on: the rows that were taken, by rising key, those of one key in
/// their order. It has copies of the rows, of which a run is made too.
pub fn input_log(alloc: Global, rows: &PackedRows) -> Result<GroupLog, AllocError>
    ensures { IfOk result (λ log. (s : TableSchema) → AllByRecursion (HasOwnKey s) rows.now
        → IsGroupLog s (by_key s (map row_of rows.now)) log) }
{
    by_key_law();
    let mut copies = rows.copy(alloc)?;
    copies.sort()?;
    Ok(GroupLog { rows: copies })
}
