//! The file of a snapshot, written.

ghost use Rattle.std.specs.Prelude.{◌≡◌, codes, decimal, FitsSigned, IfOk, IfSome, OnOk, Ok};
ghost use Rattle.std.specs.Fmt.{signed_decimal};
ghost use Rattle.std.specs.Int.{w64};
ghost use Rattle.serde_json.specs.Data.{null, number, unsigned, string, object, put};
ghost use Rattle.serde_json.specs.Find.{of_integer};
ghost use Rattle.serde_json.specs.View.{view, members_view};
ghost use Rattle.pm_snapshot.specs.Snapshot.{IsConsistent, kind_text, snapshot_in, snapshot_data, snapshot_text, properties_data, text_or_null, integer_or_null};
ghost use Rattle.pm_snapshot.specs.Ranges.{HasCommitRanges, HasCountRanges, HasPropertyRanges};

use crate::commit_kind::CommitKind;
use crate::snapshot::Snapshot;
use pm_base::Txt;
use serde_json::{Map, Value as Json};
use std::alloc::{AllocError, Global};

/// The file of a snapshot: compact JSON with its keys in order, on one line without a newline.
pub fn write_snapshot(alloc: Global, s: &Snapshot) -> Result<Vec<u8>, AllocError>
    ensures text { IfOk result (λ v. v.items ≡ snapshot_text s.now) }
    ensures again { IfOk result (λ v. IsConsistent s.now → snapshot_in s.now.id v.items ≡ Ok s.now) }
{
    json_of(alloc, s)?.to_vec(alloc)
}

/// The JSON of a snapshot.
fn json_of(alloc: Global, s: &Snapshot) -> Result<Json, AllocError>
    ensures data { IfOk result (λ json. view json ≡ snapshot_data s.now) }
    ensures commit { OnOk result (HasCommitRanges s.now) }
    ensures counts { OnOk result (HasCountRanges s.now) }
    ensures own { OnOk result (HasPropertyRanges s.now) }
{
    let mut map = Map::new(alloc);
    put_lists(alloc, &mut map, s)?;
    put_commit(alloc, &mut map, s)?;
    put_counts(alloc, &mut map, s)?;
    serde_json::put(&mut map, alloc, "properties", json_of_properties(alloc, s)?)?;
    Ok(Json::Object(map))
}

/// Adds the names of the lists, and what is read by no one.
fn put_lists(alloc: Global, map: &mut Map<String, Json>, s: &Snapshot) -> Result<(), AllocError>
    ensures { OnOk result (members_view map.new.entries
        ≡ put (codes "version") (number (unsigned 3))
        (put (codes "changelogManifestList") (text_or_null s.now.changelog_list)
        (put (codes "deltaManifestList") (string s.now.delta_list)
        (put (codes "baseManifestList") (string s.now.base_list) (members_view map.old.entries))))) }
{
    serde_json::put(
        map,
        alloc,
        "baseManifestList",
        text_of(alloc, &s.base_list)?,
    )?;
    serde_json::put(
        map,
        alloc,
        "deltaManifestList",
        text_of(alloc, &s.delta_list)?,
    )?;
    serde_json::put(
        map,
        alloc,
        "changelogManifestList",
        text_or_null(alloc, &s.changelog_list)?,
    )?;
    serde_json::put(map, alloc, "version", Json::from(3u64))
}

/// Adds what says who committed, what and when.
fn put_commit(alloc: Global, map: &mut Map<String, Json>, s: &Snapshot) -> Result<(), AllocError>
    ensures members { OnOk result (members_view map.new.entries
        ≡ put (codes "timeMillis") (number (of_integer s.now.time))
        (put (codes "commitKind") (string (kind_text s.now.kind))
        (put (codes "commitIdentifier") (number (of_integer s.now.ident))
        (put (codes "commitUser") (string s.now.user)
        (put (codes "schemaId") (number (unsigned s.now.schema_id))
        (put (codes "id") (number (unsigned s.now.id)) (members_view map.old.entries))))))) }
    ensures ranges { HasCommitRanges s.now }
{
    let (ident, time) = (s.ident, s.time);
    serde_json::put(map, alloc, "id", Json::from(s.id))?;
    serde_json::put(map, alloc, "schemaId", Json::from(s.schema_id))?;
    serde_json::put(map, alloc, "commitUser", text_of(alloc, &s.user)?)?;
    serde_json::put(map, alloc, "commitIdentifier", Json::from(ident))?;
    serde_json::put(map, alloc, "commitKind", kind_of(alloc, s.kind)?)?;
    serde_json::put(map, alloc, "timeMillis", Json::from(time))
}

/// Adds the counts of rows, and the watermark.
fn put_counts(alloc: Global, map: &mut Map<String, Json>, s: &Snapshot) -> Result<(), AllocError>
    ensures members { OnOk result (members_view map.new.entries
        ≡ put (codes "watermark") (integer_or_null s.now.watermark)
        (put (codes "changelogRecordCount") (integer_or_null s.now.changelog)
        (put (codes "deltaRecordCount") (number (of_integer s.now.delta))
        (put (codes "totalRecordCount") (number (of_integer s.now.total)) (members_view map.old.entries))))) }
    ensures ranges { OnOk result (HasCountRanges s.now) }
{
    let (total, delta) = (s.total, s.delta);
    serde_json::put(map, alloc, "totalRecordCount", Json::from(total))?;
    serde_json::put(map, alloc, "deltaRecordCount", Json::from(delta))?;
    serde_json::put(
        map,
        alloc,
        "changelogRecordCount",
        integer_or_null(s.changelog),
    )?;
    serde_json::put(map, alloc, "watermark", integer_or_null(s.watermark))
}

/// The JSON of the properties.
fn json_of_properties(alloc: Global, s: &Snapshot) -> Result<Json, AllocError>
    ensures data { IfOk result (λ json. view json ≡ properties_data s.now) }
    ensures ranges { HasPropertyRanges s.now }
{
    let (base, fence, appends, full) = (s.base, s.fence, s.appends, s.full);
    let mut map = Map::new(alloc);
    serde_json::put(&mut map, alloc, "appends", natural_text(alloc, appends)?)?;
    serde_json::put(&mut map, alloc, "base", natural_text(alloc, base)?)?;
    serde_json::put(&mut map, alloc, "fence", integer_text(alloc, fence)?)?;
    serde_json::put(&mut map, alloc, "full", natural_text(alloc, full)?)?;
    Ok(Json::Object(map))
}

/// The JSON of the decimal text of a number.
fn natural_text(alloc: Global, n: u64) -> Result<Json, AllocError>
    ensures { IfOk result (λ json. view json ≡ string (decimal n)) }
{
    Ok(Json::String(format!(in alloc; "{n}")?))
}

/// The JSON of the decimal text of a number with its sign.
fn integer_text(alloc: Global, z: i64) -> Result<Json, AllocError>
    ensures { IfOk result (λ json. view json ≡ string (signed_decimal z)) }
{
    Ok(Json::String(format!(in alloc; "{z}")?))
}

/// The JSON of a text.
fn text_of(alloc: Global, text: &Txt) -> Result<Json, AllocError>
    ensures { IfOk result (λ json. view json ≡ string text.now) }
{
    Json::try_from_str(alloc, text.as_str())
}

/// The JSON of a text that may be missing.
fn text_or_null(alloc: Global, text: &Option<Txt>) -> Result<Json, AllocError>
    ensures { IfOk result (λ json. view json ≡ text_or_null text.now) }
{
    match text {
        Some(text) => text_of(alloc, text),
        None => Ok(Json::Null),
    }
}

/// The JSON of an integer that may be missing.
fn integer_or_null(n: Option<i64>) -> Json
    ensures data { view result ≡ integer_or_null n }
    ensures range { IfSome n (FitsSigned w64) }
{
    match n {
        Some(n) => Json::from(n),
        None => Json::Null,
    }
}

/// The JSON of a kind's name.
fn kind_of(alloc: Global, kind: CommitKind) -> Result<Json, AllocError>
    ensures { IfOk result (λ json. view json ≡ string (kind_text kind)) }
{
    Json::try_from_str(alloc, name_of(kind))
}

/// The name of a kind.
fn name_of(kind: CommitKind) -> &'static str
    ensures { result.now ≡ kind_text kind }
{
    match kind {
        CommitKind::Append => "APPEND",
        CommitKind::Compact => "COMPACT",
        CommitKind::Overwrite => "OVERWRITE",
        CommitKind::Analyze => "ANALYZE",
    }
}
