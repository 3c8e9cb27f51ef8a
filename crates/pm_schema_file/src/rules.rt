//! The rules of schemas.

ghost use Rattle.std.specs.Prelude.{◌≡◌, ◌==◌, ◌||◌, map, nat_le, not};
ghost use Rattle.std.specs.List.{list_all, list_any};
ghost use Rattle.pm_options.specs.Faults.{Answers, judged};
ghost use Rattle.pm_schema.specs.Rules.{aggregation_holds, begins_name, broken, continues_name, differ, fits_columns, function_fits, group_holds, groups_hold, groups_with, has_greatest, ids_differ, is_among, is_integer, is_name, is_required, is_reserved, is_spelled, is_value_column, meets, names_of, number_of, rule_fault};
ghost use Rattle.pm_schema.specs.declared.rules.Rule.TheVariants as rules;

use pm_options::{EngineKind, Function, Listed};
use pm_schema::{Rule, TableSchema};
use pm_values::{ColType, Column, Refusal, Txt};

/// The rules in the order in which they are judged.
static RULES: [Rule; 9] = [
    Rule::Names,
    Rule::Distinct,
    Rule::Primary,
    Rule::Partition,
    Rule::Ids,
    Rule::Fields,
    Rule::Functions,
    Rule::Nulls,
    Rule::Retained,
];

/// Judges the rules of the schema.
pub(crate) fn judge_rules(schema: &TableSchema) -> Result<(), Refusal>
    ensures { Answers (λ u. u) result (judged (rule_fault schema.now)) }
{
    for rule in RULES.iter() {
        judge_rule(*rule, schema)?;
    }
    Ok(())
}

/// Judges one rule of the schema.
fn judge_rule(rule: Rule, schema: &TableSchema) -> Result<(), Refusal>
    ensures { Answers (λ u. u) result (judged (broken schema.now rule)) }
{
    if is_met(rule, schema) {
        Ok(())
    } else {
        Err(Refusal::SchemaRule { rule: number(rule) })
    }
}

/// The number of the rule.
fn number(rule: Rule) -> u32
    ensures { result ≡ number_of rule }
{
    match rule {
        Rule::Names => 1,
        Rule::Distinct => 2,
        Rule::Primary => 3,
        Rule::Partition => 4,
        Rule::Ids => 5,
        Rule::Fields => 6,
        Rule::Functions => 7,
        Rule::Nulls => 8,
        Rule::Retained => 9,
    }
}

/// Whether the schema meets the rule.
fn is_met(rule: Rule, schema: &TableSchema) -> bool
    ensures { result ≡ meets rule schema.now }
{
    match rule {
        Rule::Names => names_hold(schema),
        Rule::Distinct => distinct_holds(schema),
        Rule::Primary => primary_holds(schema),
        Rule::Partition => partition_holds(schema),
        Rule::Ids => ids_hold(schema),
        Rule::Fields => fields_hold(schema),
        Rule::Functions => functions_hold(schema),
        Rule::Nulls => nulls_hold(schema),
        Rule::Retained => retained_holds(schema),
    }
}

/// Whether each column's name is a name.
fn names_hold(schema: &TableSchema) -> bool
    ensures { result ≡ meets rules.Names schema.now }
{
    all_named(schema.columns.as_slice())
}

/// Whether each column's name is a name.
fn all_named(columns: &[Column]) -> bool
    ensures { result ≡ list_all is_name (names_of columns.now) }
{
    for column in columns {
        if !is_name(column.name.as_bytes()) {
            return false;
        }
    }
    true
}

/// Whether the text is a name: a letter or `_`, then at most 63 letters, digits or `_`, and not reserved.
fn is_name(name: &[u8]) -> bool
    ensures { result ≡ is_name name.now }
{
    is_spelled(name) && name.len() <= 64 && !is_reserved(name)
}

/// Whether the text is a letter or `_`, then letters, digits or `_`.
fn is_spelled(name: &[u8]) -> bool
    ensures { result ≡ is_spelled name.now }
{
    let Some((first, rest)) = name.split_first() else {
        return false;
    };
    begins_name(*first) && all_continue(rest)
}

/// Whether a name may go on with each of the bytes.
fn all_continue(bytes: &[u8]) -> bool
    ensures { result ≡ list_all continues_name bytes.now }
{
    for b in bytes {
        if !continues_name(*b) {
            return false;
        }
    }
    true
}

/// Whether a name may begin with the byte.
fn begins_name(b: u8) -> bool
    ensures { result ≡ begins_name b }
{
    b.is_ascii_alphabetic() || b == b'_'
}

/// Whether a name may go on with the byte.
fn continues_name(b: u8) -> bool
    ensures { result ≡ continues_name b }
{
    begins_name(b) || b.is_ascii_digit()
}

/// Whether the name is one of a field of stored records.
fn is_reserved(name: &[u8]) -> bool
    ensures { result ≡ is_reserved name.now }
{
    name.starts_with(b"_KEY_")
        || name == b"_SEQUENCE_NUMBER".as_slice()
        || name == b"_VALUE_KIND".as_slice()
}

/// Whether no two columns have one name.
fn distinct_holds(schema: &TableSchema) -> bool
    ensures { result ≡ meets rules.Distinct schema.now }
{
    columns_differ(schema.columns.as_slice())
}

/// Whether no two columns have one name.
fn columns_differ(columns: &[Column]) -> bool
    ensures { result ≡ differ (names_of columns.now) }
{
    for (index, column) in columns.iter().enumerate() {
        if has_column(columns.split_at(index + 1).1, column.name.as_str()) {
            return false;
        }
    }
    true
}

/// Whether a column has the name.
fn has_column(columns: &[Column], name: &str) -> bool
    ensures { result ≡ is_among (names_of columns.now) name.now }
{
    for column in columns {
        if column.name.as_str() == name {
            return true;
        }
    }
    false
}

/// Whether the name is one of the names.
pub(crate) fn is_among(names: &[Txt], name: &str) -> bool
    ensures { result ≡ is_among names.now name.now }
{
    for other in names {
        if other.as_str() == name {
            return true;
        }
    }
    false
}

/// Whether no name stands twice.
fn differ(names: &[Txt]) -> bool
    ensures { result ≡ differ names.now }
{
    for (index, name) in names.iter().enumerate() {
        if is_among(names.split_at(index + 1).1, name.as_str()) {
            return false;
        }
    }
    true
}

/// Whether the primary key has columns, all different and NOT NULL.
fn primary_holds(schema: &TableSchema) -> bool
    ensures { result ≡ meets rules.Primary schema.now }
{
    let primary = schema.primary.as_slice();
    !primary.is_empty() && all_required(schema.columns.as_slice(), primary) && differ(primary)
}

/// Whether each name is that of a column with NOT NULL.
fn all_required(columns: &[Column], names: &[Txt]) -> bool
    ensures { result ≡ list_all (is_required columns.now) names.now }
{
    for name in names {
        if !is_required(columns, name.as_str()) {
            return false;
        }
    }
    true
}

/// Whether a column of that name is NOT NULL.
fn is_required(columns: &[Column], name: &str) -> bool
    ensures { result ≡ is_required columns.now name.now }
{
    for column in columns {
        if column.name.as_str() == name && !column.nullable {
            return true;
        }
    }
    false
}

/// Whether the partition has columns of the primary key, all different, and not all of them.
fn partition_holds(schema: &TableSchema) -> bool
    ensures { result ≡ meets rules.Partition schema.now }
{
    let (partition, primary) = (schema.partition.as_slice(), schema.primary.as_slice());
    all_among(primary, partition) && differ(partition) && some_left(partition, primary)
}

/// Whether each of the names is one of the others.
fn all_among(others: &[Txt], names: &[Txt]) -> bool
    ensures { result ≡ list_all (is_among others.now) names.now }
{
    for name in names {
        if !is_among(others, name.as_str()) {
            return false;
        }
    }
    true
}

/// Whether one of the names isn't one of the others.
fn some_left(others: &[Txt], names: &[Txt]) -> bool
    ensures { result ≡ list_any (λ name. not (is_among others.now name)) names.now }
{
    for name in names {
        if !is_among(others, name.as_str()) {
            return true;
        }
    }
    false
}

/// Whether no two columns have one id, and none is above the greatest.
fn ids_hold(schema: &TableSchema) -> bool
    ensures { result ≡ meets rules.Ids schema.now }
{
    let columns = schema.columns.as_slice();
    ids_differ(columns) && ids_within(schema.highest, columns)
}

/// Whether no two columns have one id.
fn ids_differ(columns: &[Column]) -> bool
    ensures { result ≡ ids_differ (map (λ c. c.id) columns.now) }
{
    for (index, column) in columns.iter().enumerate() {
        if has_id(columns.split_at(index + 1).1, column.id) {
            return false;
        }
    }
    true
}

/// Whether a column has the id.
fn has_id(columns: &[Column], id: u32) -> bool
    ensures { result ≡ list_any (λ other. other == id) (map (λ c. c.id) columns.now) }
{
    for column in columns {
        if column.id == id {
            return true;
        }
    }
    false
}

/// Whether no column's id is above the greatest.
fn ids_within(highest: u32, columns: &[Column]) -> bool
    ensures { result ≡ list_all (λ c. nat_le c.id highest) columns.now }
{
    for column in columns {
        if column.id > highest {
            return false;
        }
    }
    true
}

/// Whether the options of columns that the engine looks at name columns outside the primary key.
fn fields_hold(schema: &TableSchema) -> bool
    ensures { result ≡ meets rules.Fields schema.now }
{
    match schema.options.engine {
        EngineKind::Aggregation => aggregation_holds(schema),
        EngineKind::PartialUpdate => groups_hold(schema),
        _ => true,
    }
}

/// Whether the options of aggregation name columns outside the primary key.
fn aggregation_holds(schema: &TableSchema) -> bool
    ensures { result ≡ aggregation_holds schema.now }
{
    let options = &schema.options;
    all_values(schema, options.functions.as_slice())
        && all_values(schema, options.delimiters.as_slice())
        && all_values(schema, options.ignore_retract.as_slice())
}

/// Whether the entries are those of columns outside the primary key.
fn all_values<T>(schema: &TableSchema, entries: &[(Txt, T)]) -> bool
    ensures { result ≡ list_all (λ e. is_value_column schema.now e.0) entries.now }
{
    for (name, _) in entries {
        if !is_value_column(schema, name.as_str()) {
            return false;
        }
    }
    true
}

/// Whether the name is that of a column outside the primary key.
fn is_value_column(schema: &TableSchema, name: &str) -> bool
    ensures { result ≡ is_value_column schema.now name.now }
{
    has_column(schema.columns.as_slice(), name) && !is_among(schema.primary.as_slice(), name)
}

/// Whether the sequence groups name columns outside the primary key, each in one list at most, and no
/// leading column in a list.
fn groups_hold(schema: &TableSchema) -> bool
    ensures { result ≡ groups_hold schema.now }
{
    let groups = schema.options.groups.as_slice();
    all_groups_hold(schema, groups)
        && in_one_at_most(groups, schema.columns.as_slice())
        && leaders_apart(groups)
}

/// Whether each group names columns outside the primary key.
fn all_groups_hold(schema: &TableSchema, groups: &[(Txt, Listed<Txt>)]) -> bool
    ensures { result ≡ list_all (group_holds schema.now) groups.now }
{
    for (leader, names) in groups {
        if !(is_value_column(schema, leader.as_str())
            && all_value_names(schema, names.as_slice()))
        {
            return false;
        }
    }
    true
}

/// Whether the names are those of columns outside the primary key.
fn all_value_names(schema: &TableSchema, names: &[Txt]) -> bool
    ensures { result ≡ list_all (is_value_column schema.now) names.now }
{
    for name in names {
        if !is_value_column(schema, name.as_str()) {
            return false;
        }
    }
    true
}

/// How many groups have the name in their lists.
fn groups_with(groups: &[(Txt, Listed<Txt>)], name: &str) -> usize
    ensures { result ≡ groups_with groups.now name.now }
{
    let mut count = 0;
    for (_, names) in groups {
        if is_among(names.as_slice(), name) {
            count += 1;
        }
    }
    count
}

/// Whether the name is in one group's list at most.
fn in_one_list(groups: &[(Txt, Listed<Txt>)], name: &str) -> bool
    ensures { result ≡ nat_le (groups_with groups.now name.now) 1 }
{
    groups_with(groups, name) <= 1
}

/// Whether the name is in no group's list.
fn in_no_list(groups: &[(Txt, Listed<Txt>)], name: &str) -> bool
    ensures { result ≡ (groups_with groups.now name.now == 0) }
{
    groups_with(groups, name) == 0
}

/// Whether each column is in one group's list at most.
fn in_one_at_most(groups: &[(Txt, Listed<Txt>)], columns: &[Column]) -> bool
    ensures { result ≡ list_all (λ c. nat_le (groups_with groups.now c.name) 1) columns.now }
{
    for column in columns {
        if !in_one_list(groups, column.name.as_str()) {
            return false;
        }
    }
    true
}

/// Whether no leading column is in a list.
fn leaders_apart(groups: &[(Txt, Listed<Txt>)]) -> bool
    ensures { result ≡ list_all (λ g. groups_with groups.now g.0 == 0) groups.now }
{
    for (leader, _) in groups {
        if !in_no_list(groups, leader.as_str()) {
            return false;
        }
    }
    true
}

/// Whether the aggregate functions fit their columns, where the engine has them.
fn functions_hold(schema: &TableSchema) -> bool
    ensures { result ≡ meets rules.Functions schema.now }
{
    match schema.options.engine {
        EngineKind::Aggregation => {
            all_fit(
                schema.columns.as_slice(),
                schema.options.functions.as_slice(),
            )
        }
        _ => true,
    }
}

/// Whether each function fits its columns.
fn all_fit(columns: &[Column], functions: &[(Txt, Function)]) -> bool
    ensures { result ≡ list_all (fits_columns columns.now) functions.now }
{
    for (name, function) in functions {
        if !fits_columns(columns, name.as_str(), *function) {
            return false;
        }
    }
    true
}

/// Whether the function fits each column of that name.
fn fits_columns(columns: &[Column], name: &str, function: Function) -> bool
    ensures { result ≡ fits_columns columns.now (name.now, function) }
{
    for column in columns {
        if column.name.as_str() == name && !function_fits(function, column.kind) {
            return false;
        }
    }
    true
}

/// Whether the function fits the type.
fn function_fits(function: Function, kind: ColType) -> bool
    ensures { result ≡ function_fits function kind }
{
    match function {
        Function::Sum => is_integer(kind),
        Function::Max | Function::Min => has_greatest(kind),
        Function::ListAgg => kind == ColType::Text,
        Function::BoolAnd | Function::BoolOr => kind == ColType::Boolean,
        _ => true,
    }
}

/// Whether the type is one of integers.
fn is_integer(kind: ColType) -> bool
    ensures { result ≡ is_integer kind }
{
    matches!(
        kind,
        ColType::TinyInt | ColType::SmallInt | ColType::Int | ColType::BigInt
    )
}

/// Whether values of the type have a greatest one.
fn has_greatest(kind: ColType) -> bool
    ensures { result ≡ has_greatest kind }
{
    !matches!(kind, ColType::Boolean | ColType::Bytes)
}

/// Whether null may stand in each column outside the primary key, where the engine asks for it.
fn nulls_hold(schema: &TableSchema) -> bool
    ensures { result ≡ meets rules.Nulls schema.now }
{
    match schema.options.engine {
        EngineKind::PartialUpdate | EngineKind::Aggregation => {
            may_be_null(schema.columns.as_slice(), schema.primary.as_slice())
        }
        _ => true,
    }
}

/// Whether null may stand in each column outside the primary key.
fn may_be_null(columns: &[Column], primary: &[Txt]) -> bool
    ensures { result ≡ list_all (λ c. c.nullable || is_among primary.now c.name) columns.now }
{
    for column in columns {
        if !(column.nullable || is_among(primary, column.name.as_str())) {
            return false;
        }
    }
    true
}

/// Whether the greatest number of retained snapshots isn't below the least.
fn retained_holds(schema: &TableSchema) -> bool
    ensures { result ≡ meets rules.Retained schema.now }
{
    schema.options.retained_min <= schema.options.retained_max
}
