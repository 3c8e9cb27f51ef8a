//! What follows the answers to a scanner's calls.
//!
//! What isn't handed on is dropped by name, as in `pm_read_table`.

ghost use Rattle.std.specs.Prelude.{◌≡◌, ◌⊎◌, ◌<◌, IfErr, IfOk, IsSomeAnd};
ghost use Rattle.pm_engine.specs.OfSchema.{meaning_of};
ghost use Rattle.pm_engines.specs.TableEngine.{HasEngine};
ghost use Rattle.pm_read_table.specs.Reader as views;
ghost use Rattle.pm_read_table.specs.View.{HasFolders};
ghost use Rattle.pm_group_files.specs.Reader as readers;
ghost use Rattle.pm_group_files.specs.Reader.{OfTable};
ghost use Rattle.pm_scan_rows.specs.Group.{runs_read};
ghost use Rattle.pm_scan_rows.specs.Shown.{PrintsGroups, ShowsByKind};
ghost use Rattle.pm_store.specs.Answers.{MayAnswer};
ghost use Rattle.pm_values.specs.declared.refusal.Refusal.TheVariants as refusals;
ghost use Rattle.pm_scan.specs.Scanner.{AfterFiles, AfterReader, Goes, IsEngineOf, IsScanner, Shown, Starts};
ghost use Rattle.pm_scan.specs.declared.phase.Phase.TheVariants as phases;

use crate::phase::Phase;
use crate::rows::{Rows, jobs_of};
use pm_engine::MergeEngine;
use pm_engines::TableEngine;
use pm_group_files::{Collected, GroupReader, are_files_read, into_collected, read_files};
use pm_machine::Machine;
use pm_read_table::{View, ViewReader, into_view, is_view_ready};
use pm_scan_rows::{print_groups, shows_by_kind_law};
use pm_store::Answer;
use pm_values::Refusal;
use std::alloc::{AllocError, Global};

/// The phase after an answer to a call of the view's reader.
pub(crate) fn after_view(
    alloc: Global,
    rows: Rows,
    reader: ViewReader,
    answer: Answer,
) -> Result<Phase, Refusal>
    requires may { IsSomeAnd (views.next_call reader) (λ call. MayAnswer call answer) }
    requires engine { IsEngineOf reader }
    ensures goes { IfOk result (Goes (phases.View rows reader) answer) }
    ensures is_scanner { IfOk result IsScanner }
    ensures refuses { IfErr result (Shown (phases.View rows reader) answer) }
{
    let mut reader = reader;
    match reader.take(alloc, answer) {
        Ok(()) => with_reader(alloc, rows, reader),
        Err(refusal) => {
            drop(reader);
            Err(refusal)
        }
    }
}

/// The phase with this reader of the view, or that once the view is ready.
fn with_reader(alloc: Global, rows: Rows, reader: ViewReader) -> Result<Phase, Refusal>
    requires left { views.IsReady reader ⊎ (0 < views.calls_left reader) }
    requires engine { IsEngineOf reader }
    ensures goes { IfOk result (AfterReader rows reader) }
    ensures is_scanner { IfOk result IsScanner }
    ensures memory { IfErr result (λ e. (e ≡ refusals.Memory) × views.IsReady reader) }
{
    if is_view_ready(&reader) {
        open(alloc, rows, into_view(reader))
    } else {
        Ok(Phase::View { rows, reader })
    }
}

/// The phase once this view is ready.
fn open(alloc: Global, rows: Rows, view: View) -> Result<Phase, Refusal>
    requires engine { HasEngine view.schema }
    requires folders { HasFolders view }
    ensures opens { IfOk result (Starts rows view) }
    ensures is_scanner { IfOk result IsScanner }
    ensures memory { IfErr result (λ e. e ≡ refusals.Memory) }
{
    let View {
        id,
        snapshot,
        schema,
        listed,
        groups,
        manifests,
        live,
        ..
    } = view;
    drop(snapshot);
    drop(listed);
    drop(manifests);
    drop(live);
    match jobs_of(alloc, rows, &schema, groups) {
        Ok(jobs) => with_files(alloc, rows, id, read_files(alloc, schema, id, jobs)),
        Err(_) => {
            drop(schema);
            Err(Refusal::Memory)
        }
    }
}

/// The phase after an answer to a call of the reader of files.
pub(crate) fn after_files(
    alloc: Global,
    rows: Rows,
    id: u64,
    files: GroupReader,
    answer: Answer,
) -> Result<Phase, Refusal>
    requires may { IsSomeAnd (readers.next_call files) (λ call. MayAnswer call answer) }
    requires engine { OfTable HasEngine files }
    ensures goes { IfOk result (Goes (phases.Files rows id files) answer) }
    ensures is_scanner { IfOk result IsScanner }
    ensures refuses { IfErr result (Shown (phases.Files rows id files) answer) }
{
    let mut files = files;
    match files.take(alloc, answer) {
        Ok(()) => with_files(alloc, rows, id, files),
        Err(refusal) => {
            drop(files);
            Err(refusal)
        }
    }
}

/// The phase with this reader of files, or that once all were read.
fn with_files(alloc: Global, rows: Rows, id: u64, files: GroupReader) -> Result<Phase, Refusal>
    requires { OfTable HasEngine files }
    ensures goes { IfOk result (AfterFiles rows id files) }
    ensures is_scanner { IfOk result IsScanner }
    ensures memory { IfErr result (λ e. (e ≡ refusals.Memory) × readers.IsReady files) }
{
    if !are_files_read(&files) {
        return Ok(Phase::Files { rows, id, files });
    }
    match text_of(alloc, into_collected(files)) {
        Ok(text) => Ok(Phase::Ready { rows, id, text }),
        Err(refusal) => Err(refusal),
    }
}

/// The text that the groups print which were read whole.
fn text_of(alloc: Global, collected: Collected) -> Result<Vec<u8>, Refusal>
    requires { HasEngine collected.schema }
    ensures prints { IfOk result
        (λ text. PrintsGroups (meaning_of collected.schema) (runs_read collected.groups) text.items) }
    ensures memory { IfErr result (λ e. e ≡ refusals.Memory) }
{
    shows_by_kind_law();
    match TableEngine::of_schema(alloc, collected.schema()) {
        Ok(engine) => {
            let text = print_runs(alloc, &engine, collected);
            drop(engine);
            match text {
                Ok(text) => Ok(text),
                Err(_) => Err(Refusal::Memory),
            }
        }
        Err(refusal) => {
            drop(collected);
            Err(refusal)
        }
    }
}

/// The text that the runs print of the groups which were read whole.
fn print_runs<E: MergeEngine>(
    alloc: Global,
    engine: &E,
    collected: Collected,
) -> Result<Vec<u8>, AllocError>
    requires { ShowsByKind (E.meaning engine.now) }
    ensures { IfOk result (λ text. PrintsGroups (E.meaning engine.now) (runs_read collected.groups) text.items) }
{
    let runs = collected.into_runs(alloc)?;
    print_groups(alloc, engine, runs)
}
