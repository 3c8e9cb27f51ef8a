//! What holds of all logs.

ghost use Rattle.std.specs.Prelude.{◌≡◌, ◌↔◌, List, [], true};
ghost use Rattle.pm_values.specs.Names.{Naming};
ghost use Rattle.pm_values.specs.declared.group.Group.{Group};
ghost use Rattle.pm_values.specs.declared.record.Change.{Change};
ghost use Rattle.pm_options.specs.declared.kinds.Producer.TheVariants.{Input};
ghost use Rattle.pm_schema.specs.Rules.{partition_holds};
ghost use Rattle.pm_schema.specs.declared.schema.TableSchema.{TableSchema};
ghost use Rattle.pm_model_history.specs.History.{Entry, entry_rows};
ghost use Rattle.pm_model_history.specs.Merge.{HistoryRow};
ghost use Rattle.pm_model_following.specs.Following.{by_key};
ghost use Rattle.pm_model_following.specs.Groups.{rows_in};
ghost use Rattle.pm_run.specs.declared.run.RunFile.{RunFile as FileView};
ghost use Rattle.pm_changelog.specs.GroupLog.{IsGroupLog, IsLogAt};
ghost use Rattle.pm_changelog.specs.Written.{HoldsLog, IsFileOfLog};

use pm_model_changelog::input_law;

/// A log that tells a group's rows of an entry by key is the group's log at that entry, where the table passes its
/// input on. A log has a change exactly where it tells a row. The file that is written of a log holds the rows that it
/// tells.
pub fn group_log_law()
    ensures input { (s : TableSchema) (g : Group) (entries : List Entry) (e : Entry) (log : List Change)
        → partition_holds s ≡ true → s.options.producer ≡ Input
        → IsGroupLog s (by_key s (rows_in s g (entry_rows e))) log → IsLogAt s g entries e log }
    ensures none { (s : TableSchema) (rows : List HistoryRow) (log : List Change) → IsGroupLog s rows log →
        (log ≡ []) ↔ (rows ≡ []) }
    ensures holds { (s : TableSchema) (rows : List HistoryRow) (log : List Change) (names : Naming) (f : FileView)
        → IsGroupLog s rows log → IsFileOfLog s names log f → HoldsLog s rows f }
{
    input_law();
}
