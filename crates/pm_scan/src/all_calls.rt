//! All calls of a scanner of a table whose schema was read, one after another.

ghost use Rattle.std.specs.Prelude.{◌≡◌, ◌<◌, IfErr, IfOk, Some};
ghost use Rattle.pm_machine.specs.Trace.{HasTrace};
ghost use Rattle.pm_engines.specs.TableEngine.{HasEngine};
ghost use Rattle.pm_schema.specs.Again.{IsDeclared};
ghost use Rattle.pm_store.specs.Store.{StoreView, IsLater};
ghost use Rattle.pm_read_schema.specs.Beside.{IsTold, Learns};
ghost use Rattle.pm_read_table.specs.declared.phase.Phase.TheVariants as readers;
ghost use Rattle.pm_scan.specs.AllCalls.{text_in, DidScan, Ends, Has, NamesAsked, ScansTables};
ghost use Rattle.pm_scan.specs.Asked.{AskedRows, asked_at, passed_at};
ghost use Rattle.pm_scan.specs.Beside.{PassesBeside, ScansBeside, ScansOn, TellsBeside};
ghost use Rattle.pm_scan.specs.Meaning.{Knows};
ghost use Rattle.pm_scan.specs.Scanner.{calls_left};
ghost use Rattle.pm_scan.specs.Trace.{Did};
ghost use Rattle.pm_scan.specs.declared.phase.Phase.TheVariants as phases;
ghost use Rattle.pm_scan.specs.declared.rows.Rows.TheVariants as shown;

use crate::laws::all_calls_law;
use crate::scanner::{Scanner, into_text, is_scan_ready, newest_scan, passed_scan, scan_at};
use pm_machine::take_step;
use pm_model_folder::past_law;
use pm_model_following::kept_law;
use pm_schema::TableSchema;
use pm_store::FileStore;
use pm_values::Refusal;
use std::alloc::Global;

/// Scans the table whose schema was just read, at its latest snapshot or the one with that id: all further calls, one
/// after another. It gives the text. What it promises is said of these calls, and from whatever moment on that reading
/// began. Whatever others do meanwhile, the text is the scan of the table at the snapshot that the calls read, and a
/// refusal tells what is so at the call that shows it: `Expired` comes only where that snapshot has gone, and `Damaged`
/// never does. A snapshot that a refusal names is the one that is asked for, if one is.
pub fn scan_table<F: FileStore>(
    alloc: Global,
    schema: TableSchema,
    at: Option<u64>,
    store: &mut F,
) -> Result<Vec<u8>, Refusal>
    requires declared { IsDeclared schema }
    requires engine { HasEngine schema }
    ensures own { HasTrace (Ends (asked_at schema at) (text_in result)) (F.seen store.old) (F.seen store.new) }
    ensures trace { (first : StoreView) → HasTrace (Has schema) first (F.seen store.old)
        → HasTrace (DidScan schema at (text_in result)) first (F.seen store.new) }
    ensures history { (first : StoreView) → HasTrace (Has schema) first (F.seen store.old)
        → ScansTables schema at first (F.seen store.new) (text_in result) }
    ensures beside { IfOk result (λ text. ScansBeside schema at text.items (F.seen store.old) (F.seen store.new)) }
    ensures refused { IfErr result (λ refusal. TellsBeside schema refusal (F.seen store.old) (F.seen store.new)) }
    ensures named { IfErr result (NamesAsked at) }
    ensures later { IsLater (F.seen store.old) (F.seen store.new) }
{
    all_calls_law();
    make_calls(alloc, scanner_of(schema, at), store)
}

/// Reads the rows that are passed on at the snapshot with that id of the table whose schema was just read, and gives
/// the text of their scan. What it promises is said of these calls. Whatever others do meanwhile, the text is the scan
/// of these rows at the snapshot that the calls read, and a refusal tells what is so at the call that shows it, of that
/// snapshot.
pub fn scan_passed<F: FileStore>(
    alloc: Global,
    schema: TableSchema,
    id: u64,
    store: &mut F,
) -> Result<Vec<u8>, Refusal>
    requires declared { IsDeclared schema }
    requires engine { HasEngine schema }
    ensures own { HasTrace (Ends (passed_at schema id) (text_in result)) (F.seen store.old) (F.seen store.new) }
    ensures beside { IfOk result (λ text. PassesBeside schema id text.items (F.seen store.old) (F.seen store.new)) }
    ensures refused { IfErr result (λ refusal. TellsBeside schema refusal (F.seen store.old) (F.seen store.new)) }
    ensures named { IfErr result (NamesAsked (Some id)) }
    ensures later { IsLater (F.seen store.old) (F.seen store.new) }
{
    make_calls(alloc, passed_scan(schema, id), store)
}

/// A scanner of the table at its latest snapshot, or the one with that id.
fn scanner_of(schema: TableSchema, at: Option<u64>) -> Scanner
    requires declared { IsDeclared schema }
    requires engine { HasEngine schema }
    ensures { result ≡ phases.View shown.All (readers.List (asked_at schema at).table) }
{
    match at {
        Some(id) => scan_at(schema, id),
        None => newest_scan(schema),
    }
}

/// Makes all calls that are left, or those up to a refusal.
fn make_calls<F: FileStore>(
    alloc: Global,
    scanner: Scanner,
    store: &mut F,
) -> Result<Vec<u8>, Refusal>
    requires { 0 < calls_left scanner }
    ensures trace { (a : AskedRows) (first : StoreView) → HasTrace (Did a scanner) first (F.seen store.old)
        → HasTrace (Ends a (text_in result)) first (F.seen store.new) }
    ensures beside { (a : AskedRows) (first : StoreView) → HasTrace (Did a scanner) first (F.seen store.old)
        → IfOk result (λ text. ScansOn a (Knows scanner) text.items first (F.seen store.old) (F.seen store.new)) }
    ensures refused { IfErr result (λ refusal. Learns (Knows scanner) (IsTold refusal) (F.seen store.old)
        (F.seen store.new)) }
    ensures later { IsLater (F.seen store.old) (F.seen store.new) }
{
    past_law();
    kept_law();
    let mut scanner = scanner;
    while !is_scan_ready(&scanner) {
        match take_step(alloc, &mut scanner, store) {
            Ok(_) => {}
            Err(refusal) => {
                drop(scanner);
                return Err(refusal);
            }
        }
    }
    Ok(into_text(scanner))
}
