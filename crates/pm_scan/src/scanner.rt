//! The scanner of a table.

ghost use Rattle.std.specs.Prelude.{◌≡◌, ◌↔◌, ℕ, IsTrue};
ghost use Rattle.pm_engines.specs.TableEngine.{HasEngine};
ghost use Rattle.pm_schema.specs.Again.{IsDeclared};
ghost use Rattle.pm_read_table.specs.Asked.{asked_of};
ghost use Rattle.pm_read_table.specs.declared.asked.Wanted.TheVariants as wants;
ghost use Rattle.pm_read_table.specs.declared.phase.Phase.TheVariants as readers;
ghost use Rattle.pm_scan.specs.Scanner.{IsReady};
ghost use Rattle.pm_scan.specs.declared.phase.Phase.TheVariants as phases;
ghost use Rattle.pm_scan.specs.declared.rows.Rows.{Rows as RowsShown};
ghost use Rattle.pm_scan.specs.declared.rows.Rows.TheVariants as shown;

use crate::laws::files_law;
use crate::phase::Phase;
use crate::rows::Rows;
use pm_machine::{LawfulPhase, Running};
use pm_manifest::{ManifestMeta, joined_law};
use pm_read_table::{newest_view, view_at};
use pm_record::one_reading_law;
use pm_schema::TableSchema;

/// Reads a table at a snapshot, a call of the store a step, and has the text of the scan of its rows in the end.
pub type Scanner = Running<Phase>;

/// A scanner of the table with this schema, which was just read, at its latest snapshot. The schema has to have an
/// engine, as each has that was read.
pub fn newest_scan(schema: TableSchema) -> Scanner
    requires declared { IsDeclared schema }
    requires engine { HasEngine schema }
    ensures { result ≡ phases.View shown.All (readers.List (asked_of schema wants.Newest)) }
{
    Running::new(Phase::View {
        rows: Rows::All,
        reader: newest_view(schema),
    })
}

/// The same at the snapshot with this id.
pub fn scan_at(schema: TableSchema, id: u64) -> Scanner
    requires declared { IsDeclared schema }
    requires engine { HasEngine schema }
    ensures { result ≡ phases.View shown.All (readers.List (asked_of schema (wants.At id))) }
{
    rows_at(Rows::All, schema, id)
}

/// The same of the rows that are passed on there.
pub fn passed_scan(schema: TableSchema, id: u64) -> Scanner
    requires declared { IsDeclared schema }
    requires engine { HasEngine schema }
    ensures { result ≡ phases.View shown.Passed (readers.List (asked_of schema (wants.At id))) }
{
    rows_at(Rows::Passed, schema, id)
}

/// A scanner of these rows.
fn rows_at(rows: Rows, schema: TableSchema, id: u64) -> Scanner
    requires declared { IsDeclared schema }
    requires engine { HasEngine schema }
    ensures { result ≡ phases.View rows (readers.List (asked_of schema (wants.At id))) }
{
    Running::new(Phase::View {
        rows,
        reader: view_at(schema, id),
    })
}

/// Whether the text is ready.
pub fn is_scan_ready(scanner: &Scanner) -> bool
    ensures { IsTrue result ↔ IsReady scanner.now }
{
    matches!(scanner.phase(), Phase::Ready { .. })
}

/// The text of the scan, once it is ready.
pub fn into_text(scanner: Scanner) -> Vec<u8>
    requires { IsReady scanner }
    ensures { (rows : RowsShown) × (id : ℕ) × (scanner ≡ phases.Ready rows id result) }
{
    match scanner.into_phase() {
        Phase::Ready { text, .. } => text,
        _ => unreachable!(),
    }
}

impl LawfulPhase for Phase {
    fn laws() {
        joined_law();
        one_reading_law::<ManifestMeta>();
        files_law();
        pm_read_table::causes_law();
        pm_group_files::causes_law();
    }
}
