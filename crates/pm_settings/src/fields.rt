//! The options of a column.

ghost use Rattle.std.specs.Prelude.{◌≡◌, option_map, IfOk};
ghost use Rattle.pm_options.specs.Fields.{column_in, is_of_column, function_suffix, delimiter_suffix, retract_suffix, group_suffix, texts_of, meant, names_in, names_meant, has_comma, entries_views};
ghost use Rattle.pm_options.specs.Kinds.{function_in, truth_in};
ghost use Rattle.pm_options.specs.Settings.{views};

use crate::kinds::{read_function, read_truth};
use pm_options::{Function, Listed};
use pm_values::Txt;
use std::alloc::{AllocError, Global};
use std::collections::BTreeMap;

/// How the key of an option of a column begins.
pub(crate) const PREFIX: &str = "fields.";

pub(crate) const FUNCTION_SUFFIX: &str = ".aggregate-function";

pub(crate) const DELIMITER_SUFFIX: &str = ".list-agg-delimiter";

pub(crate) const RETRACT_SUFFIX: &str = ".ignore-retract";

pub(crate) const GROUP_SUFFIX: &str = ".sequence-group";

/// The column that a key with the suffix names.
pub(crate) fn column_in<'t>(suffix: &str, key: &'t str) -> Option<&'t str>
    ensures { option_map (λ column. column.now) result ≡ column_in suffix.now key.now }
{
    let rest = key.strip_prefix(PREFIX)?;
    rest.strip_suffix(suffix)
}

/// Whether the key is that of an option of a column.
pub(crate) fn is_of_column(key: &str) -> bool
    ensures { result ≡ is_of_column key.now }
{
    column_in(FUNCTION_SUFFIX, key).is_some()
        || column_in(DELIMITER_SUFFIX, key).is_some()
        || column_in(RETRACT_SUFFIX, key).is_some()
        || column_in(GROUP_SUFFIX, key).is_some()
}

/// Whether a comma stands in the text.
pub(crate) fn has_comma(text: &str) -> bool
    ensures { result ≡ has_comma text.now }
{
    text.as_bytes().contains(&b',')
}

/// The texts of the options with the suffix, by rising column.
fn texts_of<'t>(
    alloc: Global,
    suffix: &str,
    settings: &[(&'t str, &'t str)],
) -> Result<BTreeMap<Txt, &'t str>, AllocError>
    ensures { IfOk result (λ m. entries_views m.entries ≡ texts_of suffix.now (views settings.now)) }
{
    let mut texts = BTreeMap::new(alloc);
    let mut left = settings.len();
    while left > 0 {
        left -= 1;
        let (key, text) = settings[left];
        if let Some(column) = column_in(suffix, key) {
            texts.insert(Txt::from_str(alloc, column)?, text)?;
        }
    }
    Ok(texts)
}

/// The aggregate functions.
pub(crate) fn functions_in(
    alloc: Global,
    settings: &[(&str, &str)],
) -> Result<Listed<(Txt, Function)>, AllocError>
    ensures { IfOk result (λ l. l ≡ meant function_in (texts_of function_suffix (views settings.now))) }
{
    functions_of(alloc, texts_of(alloc, FUNCTION_SUFFIX, settings)?)
}

/// The functions that texts name.
fn functions_of(
    alloc: Global,
    texts: BTreeMap<Txt, &str>,
) -> Result<Listed<(Txt, Function)>, AllocError>
    ensures { IfOk result (λ l. l ≡ meant function_in (entries_views texts.entry.entries)) }
{
    let mut functions = Vec::new(alloc);
    for (column, text) in texts {
        if let Some(function) = read_function(text) {
            functions.push((column, function))?;
        }
    }
    Ok(Listed::new(functions))
}

/// The delimiters of joined texts.
pub(crate) fn delimiters_in(
    alloc: Global,
    settings: &[(&str, &str)],
) -> Result<Listed<(Txt, Txt)>, AllocError>
    ensures { IfOk result (λ l. l ≡ texts_of delimiter_suffix (views settings.now)) }
{
    delimiters_of(alloc, texts_of(alloc, DELIMITER_SUFFIX, settings)?)
}

/// The texts themselves.
fn delimiters_of(
    alloc: Global,
    texts: BTreeMap<Txt, &str>,
) -> Result<Listed<(Txt, Txt)>, AllocError>
    ensures { IfOk result (λ l. l ≡ entries_views texts.entry.entries) }
{
    let mut delimiters = Vec::new(alloc);
    for (column, text) in texts {
        delimiters.push((column, Txt::from_str(alloc, text)?))?;
    }
    Ok(Listed::new(delimiters))
}

/// Whether columns ignore retractions.
pub(crate) fn retracts_in(
    alloc: Global,
    settings: &[(&str, &str)],
) -> Result<Listed<(Txt, bool)>, AllocError>
    ensures { IfOk result (λ l. l ≡ meant truth_in (texts_of retract_suffix (views settings.now))) }
{
    retracts_of(alloc, texts_of(alloc, RETRACT_SUFFIX, settings)?)
}

/// The truths that texts name.
fn retracts_of(alloc: Global, texts: BTreeMap<Txt, &str>) -> Result<Listed<(Txt, bool)>, AllocError>
    ensures { IfOk result (λ l. l ≡ meant truth_in (entries_views texts.entry.entries)) }
{
    let mut retracts = Vec::new(alloc);
    for (column, text) in texts {
        if let Some(truth) = read_truth(text) {
            retracts.push((column, truth))?;
        }
    }
    Ok(Listed::new(retracts))
}

/// The sequence groups.
pub(crate) fn groups_in(
    alloc: Global,
    settings: &[(&str, &str)],
) -> Result<Listed<(Txt, Listed<Txt>)>, AllocError>
    ensures { IfOk result (λ l. l ≡ meant names_meant (texts_of group_suffix (views settings.now))) }
{
    groups_of(alloc, texts_of(alloc, GROUP_SUFFIX, settings)?)
}

/// The groups that texts list.
fn groups_of(
    alloc: Global,
    texts: BTreeMap<Txt, &str>,
) -> Result<Listed<(Txt, Listed<Txt>)>, AllocError>
    ensures { IfOk result (λ l. l ≡ meant names_meant (entries_views texts.entry.entries)) }
{
    let mut groups = Vec::new(alloc);
    for (column, text) in texts {
        groups.push((column, names_in(alloc, text)?))?;
    }
    Ok(Listed::new(groups))
}

/// The names of a list, which stand between commas.
fn names_in(alloc: Global, text: &str) -> Result<Listed<Txt>, AllocError>
    ensures { IfOk result (λ l. l ≡ names_in text.now) }
{
    let mut names = Vec::new(alloc);
    for name in text.split(',') {
        names.push(Txt::from_str(alloc, name)?)?;
    }
    Ok(Listed::new(names))
}
