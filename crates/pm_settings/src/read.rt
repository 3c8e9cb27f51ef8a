//! Options from settings.

ghost use Rattle.std.specs.Prelude.{◌≡◌, IfOk, filter};
ghost use Rattle.pm_options.specs.Faults.{Answers, judged, first_of};
ghost use Rattle.pm_options.specs.Kinds.{engine_in, producer_in};
ghost use Rattle.pm_options.specs.Numbers.{time_in};
ghost use Rattle.pm_options.specs.Options.{number_at, number_or, levels_at, truth_at, engine_at, producer_at, time_at, is_kept, is_kept_key, options_in};
ghost use Rattle.pm_options.specs.Reading.{setting_fault, form_fault, unless_taken, too_many, column_takes, names_commas, options_of};
ghost use Rattle.pm_options.specs.Settings.{views};

use crate::fault::{limit, unsupported};
use crate::fields::{
    FUNCTION_SUFFIX, GROUP_SUFFIX, RETRACT_SUFFIX, column_in, delimiters_in, functions_in,
    groups_in, has_comma, is_of_column, retracts_in,
};
use crate::kinds::{read_engine, read_function, read_producer, read_truth};
use crate::numbers::{read_number, read_number_from, read_time};
use crate::pairs::judge_pairs;
use crate::settings::text_at;
use crate::table::{MOST_BUCKETS, form_of, is_taken, only_of, takes};
use pm_options::{EngineKind, Form, Listed, Options, Producer};
use pm_values::{Refusal, Txt};
use std::alloc::{AllocError, Global};

/// The options that settings in the order of their keys state, or their first fault.
#[tactic(auto, unfolding(pm_options::specs::Reading::options_of))]
pub fn read_options(alloc: Global, settings: &[(&str, &str)]) -> Result<Options, Refusal>
    ensures { Answers (λ o. o) result (options_of (views settings.now)) }
{
    judge_settings(alloc, settings)?;
    let options = options_in(alloc, settings)?;
    judge_pairs(alloc, &options)?;
    Ok(options)
}

/// Judges the settings in their order.
fn judge_settings(alloc: Global, settings: &[(&str, &str)]) -> Result<(), Refusal>
    ensures { Answers (λ u. u) result (judged (first_of setting_fault (views settings.now))) }
{
    for (key, text) in settings {
        judge_setting(alloc, *key, *text)?;
    }
    Ok(())
}

/// Judges one setting.
fn judge_setting(alloc: Global, key: &str, text: &str) -> Result<(), Refusal>
    ensures { Answers (λ u. u) result (judged (setting_fault (key.now, text.now))) }
{
    if let Some(form) = form_of(key) {
        return judge_form(alloc, form, key, text);
    }
    match only_of(key) {
        Some(only) => refuse_unless(alloc, is_taken(only, text), key, text),
        None => refuse_unless(alloc, column_takes(key, text), key, text),
    }
}

/// Judges a setting of an option of the table.
fn judge_form(alloc: Global, form: Form, key: &str, text: &str) -> Result<(), Refusal>
    ensures { Answers (λ u. u) result (judged (form_fault form (key.now, text.now))) }
{
    if exceeds(form, text) {
        limit(alloc, "buckets", u64::from(MOST_BUCKETS))
    } else {
        refuse_unless(alloc, takes(form, text), key, text)
    }
}

/// Refuses a setting unless its text is taken.
fn refuse_unless(alloc: Global, taken: bool, key: &str, text: &str) -> Result<(), Refusal>
    ensures { Answers (λ u. u) result (judged (unless_taken taken (key.now, text.now))) }
{
    if taken {
        Ok(())
    } else {
        unsupported(alloc, key, text)
    }
}

/// Whether a text states more buckets than there may be.
fn exceeds(form: Form, text: &str) -> bool
    ensures { result ≡ too_many form text.now }
{
    if let Form::Bucket = form {
        match read_number(text) {
            Some(n) => n > u64::from(MOST_BUCKETS),
            None => false,
        }
    } else {
        false
    }
}

/// Whether the text, or the column, of an option of a column is taken.
fn column_takes(key: &str, text: &str) -> bool
    ensures { result ≡ column_takes (key.now, text.now) }
{
    (column_in(FUNCTION_SUFFIX, key).is_none() || read_function(text).is_some())
        && (column_in(RETRACT_SUFFIX, key).is_none() || read_truth(text).is_some())
        && !names_commas(key)
}

/// Whether the key is that of a sequence group whose column has a comma.
fn names_commas(key: &str) -> bool
    ensures { result ≡ names_commas key.now }
{
    match column_in(GROUP_SUFFIX, key) {
        Some(column) => has_comma(column),
        None => false,
    }
}

/// The options of settings whose texts are taken.
fn options_in(alloc: Global, settings: &[(&str, &str)]) -> Result<Options, AllocError>
    ensures { IfOk result (λ o. o ≡ options_in (views settings.now)) }
{
    let functions = functions_in(alloc, settings)?;
    let delimiters = delimiters_in(alloc, settings)?;
    let ignore_retract = retracts_in(alloc, settings)?;
    let groups = groups_in(alloc, settings)?;
    let kept = kept_in(alloc, settings)?;
    Ok(Options {
        bucket: number_or(settings, "bucket", 1),
        engine: engine_at(settings),
        ignore_delete: truth_at(settings, "ignore-delete"),
        producer: producer_at(settings),
        row_deduplicate: truth_at(settings, "changelog-producer.row-deduplicate"),
        delta_commits: number_at(settings, "full-compaction.delta-commits"),
        trigger: number_or(settings, "num-sorted-run.compaction-trigger", 5),
        levels: levels_at(settings),
        amplification: number_or(settings, "compaction.max-size-amplification-percent", 200),
        ratio: number_or(settings, "compaction.size-ratio", 1),
        merge_min: number_or(settings, "manifest.merge-min-count", 30),
        retained_millis: time_at(settings),
        retained_min: u64::from(number_or(settings, "snapshot.num-retained.min", 10)),
        retained_max: u64::from(number_or(settings, "snapshot.num-retained.max", 2147483647)),
        functions,
        delimiters,
        ignore_retract,
        groups,
        kept,
    })
}

/// The number at a key, of the range that the table has for it.
fn number_at(settings: &[(&str, &str)], key: &str) -> Option<u32>
    ensures { result ≡ number_at key.now (views settings.now) }
{
    let text = text_at(settings, key)?;
    match form_of(key) {
        Some(Form::Bucket) => read_number_from(1, MOST_BUCKETS, text),
        Some(Form::Number(low, high)) => read_number_from(low, high, text),
        _ => None,
    }
}

/// The number at a key, or a default.
fn number_or(settings: &[(&str, &str)], key: &str, default: u32) -> u32
    ensures { result ≡ number_or default key.now (views settings.now) }
{
    number_at(settings, key).unwrap_or(default)
}

/// The number of levels, by default one more than the trigger.
fn levels_at(settings: &[(&str, &str)]) -> u32
    ensures { result ≡ levels_at (views settings.now) }
{
    let trigger = number_or(settings, "num-sorted-run.compaction-trigger", 5);
    number_or(settings, "num-levels", trigger + 1)
}

/// The truth at a key, false by default.
fn truth_at(settings: &[(&str, &str)], key: &str) -> bool
    ensures { result ≡ truth_at key.now (views settings.now) }
{
    match text_at(settings, key) {
        Some(text) => read_truth(text).unwrap_or(false),
        None => false,
    }
}

/// The merge engine.
fn engine_at(settings: &[(&str, &str)]) -> EngineKind
    ensures { result ≡ engine_at (views settings.now) }
{
    match text_at(settings, "merge-engine") {
        Some(text) => read_engine(text).unwrap_or(EngineKind::Deduplicate),
        None => EngineKind::Deduplicate,
    }
}

/// The changelog producer.
fn producer_at(settings: &[(&str, &str)]) -> Producer
    ensures { result ≡ producer_at (views settings.now) }
{
    match text_at(settings, "changelog-producer") {
        Some(text) => read_producer(text).unwrap_or(Producer::None),
        None => Producer::None,
    }
}

/// The retained time in milliseconds.
fn time_at(settings: &[(&str, &str)]) -> u64
    ensures { result ≡ time_at (views settings.now) }
{
    match text_at(settings, "snapshot.time-retained") {
        Some(text) => read_time(text).unwrap_or(3600000),
        None => 3600000,
    }
}

/// The settings of options that have no field.
fn kept_in(alloc: Global, settings: &[(&str, &str)]) -> Result<Listed<(Txt, Txt)>, AllocError>
    ensures { IfOk result (λ l. l ≡ filter is_kept (views settings.now)) }
{
    let mut kept = Vec::new(alloc);
    for (key, text) in settings {
        if is_kept(*key) {
            kept.push((Txt::from_str(alloc, *key)?, Txt::from_str(alloc, *text)?))?;
        }
    }
    Ok(Listed::new(kept))
}

/// Whether the key is that of no option that has a field.
fn is_kept(key: &str) -> bool
    ensures { result ≡ is_kept_key key.now }
{
    !(form_of(key).is_some() || is_of_column(key))
}
