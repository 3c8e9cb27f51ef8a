//! Settings from options.

ghost use Rattle.std.specs.Prelude.{◌≡◌, ◌==◌, ◌∷◌, [], ◌++◌, codes, true, IfOk, OnOk, decimal};
ghost use Rattle.pm_options.specs.Fields.{delimiter_suffix, function_suffix, group_suffix, retract_suffix};
ghost use Rattle.pm_options.specs.Kinds.{function_text, truth_text};
ghost use Rattle.pm_options.specs.Pairs.{column_key};
ghost use Rattle.pm_options.specs.Written.{settings_of, kind_settings, count_settings, retained_settings, unless_default, number_unless, truth_if, number_if, column_settings, list_text, text_views, Adds};

use crate::fields::{DELIMITER_SUFFIX, FUNCTION_SUFFIX, GROUP_SUFFIX, PREFIX, RETRACT_SUFFIX};
use crate::kinds::{print_engine, print_function, print_producer, print_truth};
use crate::names::print_names;
use pm_options::{EngineKind, Function, Listed, Options, Producer};
use pm_values::Txt;
use std::alloc::{AllocError, Global};

/// The settings that the options are written as, in no order.
pub fn write_options(alloc: Global, options: &Options) -> Result<Vec<(String, String)>, AllocError>
    ensures { IfOk result (λ v. text_views v.items ≡ settings_of options.now) }
{
    let mut out = Vec::new(alloc);
    push_number(alloc, &mut out, "bucket", u64::from(options.bucket))?;
    push(alloc, &mut out, "file.format", "avro")?;
    push_kinds(alloc, &mut out, options)?;
    push_counts(alloc, &mut out, options)?;
    push_retained(alloc, &mut out, options)?;
    push_functions(alloc, &mut out, options.functions.as_slice())?;
    push_delimiters(alloc, &mut out, options.delimiters.as_slice())?;
    push_retracts(alloc, &mut out, options.ignore_retract.as_slice())?;
    push_groups(alloc, &mut out, options.groups.as_slice())?;
    push_kept(alloc, &mut out, options.kept.as_slice())?;
    Ok(out)
}

/// Adds a setting.
fn push(
    alloc: Global,
    out: &mut Vec<(String, String)>,
    key: &str,
    text: &str,
) -> Result<(), AllocError>
    ensures { OnOk result (Adds out.old.items out.new.items ((key.now, text.now) ∷ [])) }
{
    let key = String::from_str(alloc, key)?;
    let text = String::from_str(alloc, text)?;
    out.push((key, text))?;
    Ok(())
}

/// Adds a setting unless its value is the default.
fn push_unless(
    alloc: Global,
    out: &mut Vec<(String, String)>,
    default: bool,
    key: &str,
    text: &str,
) -> Result<(), AllocError>
    ensures { OnOk result (Adds out.old.items out.new.items (unless_default default key.now text.now)) }
{
    if default {
        Ok(())
    } else {
        push(alloc, out, key, text)
    }
}

/// Adds a number.
fn push_number(
    alloc: Global,
    out: &mut Vec<(String, String)>,
    key: &str,
    number: u64,
) -> Result<(), AllocError>
    ensures { OnOk result (Adds out.old.items out.new.items ((key.now, decimal number) ∷ [])) }
{
    let text = format!(in alloc; "{number}")?;
    push(alloc, out, key, text.as_str())
}

/// Adds a number unless it is the default.
fn push_number_unless(
    alloc: Global,
    out: &mut Vec<(String, String)>,
    default: u64,
    key: &str,
    number: u64,
) -> Result<(), AllocError>
    ensures { OnOk result (Adds out.old.items out.new.items (number_unless default key.now number)) }
{
    if number == default {
        Ok(())
    } else {
        push_number(alloc, out, key, number)
    }
}

/// Adds a number where there is one.
fn push_number_if(
    alloc: Global,
    out: &mut Vec<(String, String)>,
    key: &str,
    number: Option<u32>,
) -> Result<(), AllocError>
    ensures { OnOk result (Adds out.old.items out.new.items (number_if key.now number)) }
{
    match number {
        Some(number) => push_number(alloc, out, key, u64::from(number)),
        None => Ok(()),
    }
}

/// Adds a truth unless it is false.
fn push_truth(
    alloc: Global,
    out: &mut Vec<(String, String)>,
    key: &str,
    truth: bool,
) -> Result<(), AllocError>
    ensures { OnOk result (Adds out.old.items out.new.items (truth_if key.now truth)) }
{
    push_unless(alloc, out, !truth, key, "true")
}

/// Adds how the rows of a key become one, and where the changelog comes from.
fn push_kinds(
    alloc: Global,
    out: &mut Vec<(String, String)>,
    options: &Options,
) -> Result<(), AllocError>
    ensures { OnOk result (Adds out.old.items out.new.items (kind_settings options.now)) }
{
    let (engine, producer) = (options.engine, options.producer);
    let default = engine == EngineKind::Deduplicate;
    push_unless(alloc, out, default, "merge-engine", print_engine(engine))?;
    push_truth(alloc, out, "ignore-delete", options.ignore_delete)?;
    let default = producer == Producer::None;
    push_unless(
        alloc,
        out,
        default,
        "changelog-producer",
        print_producer(producer),
    )?;
    push_truth(
        alloc,
        out,
        "changelog-producer.row-deduplicate",
        options.row_deduplicate,
    )?;
    Ok(())
}

/// Adds when runs are compacted and manifests merged.
fn push_counts(
    alloc: Global,
    out: &mut Vec<(String, String)>,
    options: &Options,
) -> Result<(), AllocError>
    ensures { OnOk result (Adds out.old.items out.new.items (count_settings options.now)) }
{
    let trigger = u64::from(options.trigger);
    push_number_if(
        alloc,
        out,
        "full-compaction.delta-commits",
        options.delta_commits,
    )?;
    push_number_unless(alloc, out, 5, "num-sorted-run.compaction-trigger", trigger)?;
    push_number_unless(
        alloc,
        out,
        trigger + 1,
        "num-levels",
        u64::from(options.levels),
    )?;
    push_number_unless(
        alloc,
        out,
        200,
        "compaction.max-size-amplification-percent",
        u64::from(options.amplification),
    )?;
    push_number_unless(
        alloc,
        out,
        1,
        "compaction.size-ratio",
        u64::from(options.ratio),
    )?;
    push_number_unless(
        alloc,
        out,
        30,
        "manifest.merge-min-count",
        u64::from(options.merge_min),
    )?;
    Ok(())
}

/// Adds how long snapshots are retained.
fn push_retained(
    alloc: Global,
    out: &mut Vec<(String, String)>,
    options: &Options,
) -> Result<(), AllocError>
    ensures { OnOk result (Adds out.old.items out.new.items (retained_settings options.now)) }
{
    let millis = options.retained_millis;
    let text = format!(in alloc; "{millis} ms")?;
    push_unless(
        alloc,
        out,
        millis == 3600000,
        "snapshot.time-retained",
        text.as_str(),
    )?;
    push_number_unless(
        alloc,
        out,
        10,
        "snapshot.num-retained.min",
        options.retained_min,
    )?;
    push_number_unless(
        alloc,
        out,
        2147483647,
        "snapshot.num-retained.max",
        options.retained_max,
    )?;
    Ok(())
}

/// Adds an option of a column.
fn push_column(
    alloc: Global,
    out: &mut Vec<(String, String)>,
    suffix: &str,
    column: &Txt,
    text: &str,
) -> Result<(), AllocError>
    ensures { OnOk result (Adds out.old.items out.new.items ((column_key suffix.now column.now, text.now) ∷ [])) }
{
    let key = format!(in alloc; "{PREFIX}{column}{suffix}")?;
    push(alloc, out, key.as_str(), text)
}

/// Adds the aggregate functions.
fn push_functions(
    alloc: Global,
    out: &mut Vec<(String, String)>,
    functions: &[(Txt, Function)],
) -> Result<(), AllocError>
    ensures { OnOk result (Adds out.old.items out.new.items
        (column_settings function_suffix function_text functions.now)) }
{
    for (column, function) in functions {
        push_column(
            alloc,
            out,
            FUNCTION_SUFFIX,
            column,
            print_function(*function),
        )?;
    }
    Ok(())
}

/// Adds the delimiters.
fn push_delimiters(
    alloc: Global,
    out: &mut Vec<(String, String)>,
    delimiters: &[(Txt, Txt)],
) -> Result<(), AllocError>
    ensures { OnOk result (Adds out.old.items out.new.items
        (column_settings delimiter_suffix (λ text. text) delimiters.now)) }
{
    for (column, text) in delimiters {
        push_column(alloc, out, DELIMITER_SUFFIX, column, text.as_str())?;
    }
    Ok(())
}

/// Adds whether columns ignore retractions.
fn push_retracts(
    alloc: Global,
    out: &mut Vec<(String, String)>,
    retracts: &[(Txt, bool)],
) -> Result<(), AllocError>
    ensures { OnOk result (Adds out.old.items out.new.items (column_settings retract_suffix truth_text retracts.now)) }
{
    for (column, truth) in retracts {
        push_column(alloc, out, RETRACT_SUFFIX, column, print_truth(*truth))?;
    }
    Ok(())
}

/// Adds the sequence groups.
fn push_groups(
    alloc: Global,
    out: &mut Vec<(String, String)>,
    groups: &[(Txt, Listed<Txt>)],
) -> Result<(), AllocError>
    ensures { OnOk result (Adds out.old.items out.new.items (column_settings group_suffix list_text groups.now)) }
{
    for (column, names) in groups {
        let text = print_names(alloc, names.as_slice())?;
        push_column(alloc, out, GROUP_SUFFIX, column, text.as_str())?;
    }
    Ok(())
}

/// Adds the settings that are kept.
fn push_kept(
    alloc: Global,
    out: &mut Vec<(String, String)>,
    kept: &[(Txt, Txt)],
) -> Result<(), AllocError>
    ensures { OnOk result (Adds out.old.items out.new.items kept.now) }
{
    for (key, text) in kept {
        push(alloc, out, key.as_str(), text.as_str())?;
    }
    Ok(())
}
