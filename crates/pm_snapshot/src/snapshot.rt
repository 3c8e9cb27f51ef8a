//! A snapshot, and its file read.

ghost use Rattle.std.specs.Prelude.{◌≡◌, pos, int_lt, IfOk};
ghost use Rattle.pm_base.specs.Outcome.{Gives};
ghost use Rattle.serde_json.specs.View.{view};
ghost use Rattle.pm_snapshot.specs.Fault.{fault_of};
ghost use Rattle.pm_snapshot.specs.Snapshot.{IsConsistent, is_consistent, checked, kind_in, kind_at, snapshot_from, snapshot_in};

use crate::commit_kind::CommitKind;
use crate::fault::SnapFault;
use crate::field;
use crate::properties::properties_at;
use pm_base::Txt;
use serde_json::Value as Json;
use std::alloc::Global;

/// A snapshot of the table, as its file has it.
pub struct Snapshot {
    /// Its number, from 1.
    pub id: u64,
    /// The id of its schema.
    pub schema_id: u64,
    /// The file name of the list of the manifests that it took over.
    pub base_list: Txt,
    /// The file name of the list of the manifests that its commit added.
    pub delta_list: Txt,
    /// The file name of the list of its changelog's manifests.
    pub changelog_list: Option<Txt>,
    /// Who committed it.
    pub user: Txt,
    /// The identifier that this user gave the commit.
    pub ident: i64,
    /// What the commit did.
    pub kind: CommitKind,
    /// When it was committed, in milliseconds from 1970-01-01.
    pub time: i64,
    /// The rows of all live files.
    pub total: i64,
    /// The rows that the commit's files added, less those of the files that it took away.
    pub delta: i64,
    /// The rows of its changelog.
    pub changelog: Option<i64>,
    /// A mark that the next snapshot takes over.
    pub watermark: Option<i64>,
    /// The newest snapshot that the committing actor had read at its first try.
    pub base: u64,
    /// The greatest base whose files were swept, or -1.
    pub fence: i64,
    /// How many commits appended rows so far.
    pub appends: u64,
    /// Of these, how many came before the view of the last compaction that was asked in full.
    pub full: u64,
}

impl Drop for Snapshot {
    fn drop(self) {
        let Snapshot {
            id,
            schema_id,
            base_list,
            delta_list,
            changelog_list,
            user,
            ident,
            kind,
            time,
            total,
            delta,
            changelog,
            watermark,
            base,
            fence,
            appends,
            full,
        } = self;
    }
}

impl Snapshot {
    /// Who committed it.
    pub fn into_user(self) -> Txt
        ensures { result ≡ self.user }
    {
        let Snapshot {
            id,
            schema_id,
            base_list,
            delta_list,
            changelog_list,
            user,
            ident,
            kind,
            time,
            total,
            delta,
            changelog,
            watermark,
            base,
            fence,
            appends,
            full,
        } = self;
        user
    }
}

/// The snapshot that the bytes of the file of an id are. `Bad` comes exactly where they are none.
#[tactic(auto, unfolding(crate::specs::Snapshot::snapshot_in))]
pub fn read_snapshot(alloc: Global, id: u64, bytes: &[u8]) -> Result<Snapshot, SnapFault>
    ensures exact { Gives (λ s. s) fault_of result (snapshot_in id bytes.now) }
    ensures id { IfOk result (λ s. s.id ≡ id) }
    ensures consistent { IfOk result IsConsistent }
{
    let json = field::read_json(alloc, bytes)?;
    snapshot_from(alloc, id, &json)
}

/// The snapshot that JSON says, in the file of an id.
#[tactic(auto, unfolding(crate::specs::Snapshot::snapshot_from))]
fn snapshot_from(alloc: Global, id: u64, json: &Json) -> Result<Snapshot, SnapFault>
    ensures exact { Gives (λ s. s) fault_of result (snapshot_from id (view json.now)) }
    ensures id { IfOk result (λ s. s.id ≡ id) }
    ensures consistent { IfOk result IsConsistent }
{
    let own_id = field::natural_at(json, "id")?;
    let schema_id = field::natural_at(json, "schemaId")?;
    let base_list = field::text_at(alloc, json, "baseManifestList")?;
    let delta_list = field::text_at(alloc, json, "deltaManifestList")?;
    let changelog_list = field::maybe_text_at(alloc, json, "changelogManifestList")?;
    let user = field::text_at(alloc, json, "commitUser")?;
    let ident = field::integer_at(json, "commitIdentifier")?;
    let kind = kind_at(json, "commitKind")?;
    let time = field::integer_at(json, "timeMillis")?;
    let total = field::integer_at(json, "totalRecordCount")?;
    let delta = field::integer_at(json, "deltaRecordCount")?;
    let changelog = field::maybe_integer_at(json, "changelogRecordCount")?;
    let watermark = field::maybe_integer_at(json, "watermark")?;
    let own = properties_at(id, json)?;
    let snapshot = Snapshot {
        id: own_id,
        schema_id,
        base_list,
        delta_list,
        changelog_list,
        user,
        ident,
        kind,
        time,
        total,
        delta,
        changelog,
        watermark,
        base: own.base,
        fence: own.fence,
        appends: own.appends,
        full: own.full,
    };
    checked(id, snapshot)
}

/// The kind that the field with a name has.
fn kind_at(json: &Json, name: &str) -> Result<CommitKind, SnapFault>
    ensures { Gives (λ kind. kind) fault_of result (kind_at name.now (view json.now)) }
{
    let Some(value) = json.get(name) else {
        return Err(SnapFault::Bad);
    };
    match value.as_str() {
        Some(text) => kind_in(text).ok_or(SnapFault::Bad),
        None => Err(SnapFault::Bad),
    }
}

/// The kind with a name.
fn kind_in(text: &str) -> Option<CommitKind>
    ensures { result ≡ kind_in text.now }
{
    if text == "APPEND" {
        Some(CommitKind::Append)
    } else if text == "COMPACT" {
        Some(CommitKind::Compact)
    } else if text == "OVERWRITE" {
        Some(CommitKind::Overwrite)
    } else if text == "ANALYZE" {
        Some(CommitKind::Analyze)
    } else {
        None
    }
}

/// The snapshot where it bears the id and its numbers stand to each other as they have to.
fn checked(id: u64, snapshot: Snapshot) -> Result<Snapshot, SnapFault>
    ensures exact { Gives (λ s. s) fault_of result (checked id snapshot) }
    ensures id { IfOk result (λ s. s.id ≡ id) }
    ensures consistent { IfOk result IsConsistent }
{
    if snapshot.id == id && is_consistent(&snapshot) {
        Ok(snapshot)
    } else {
        Err(SnapFault::Bad)
    }
}

/// Whether the numbers of a snapshot stand to each other as they have to.
fn is_consistent(s: &Snapshot) -> bool
    ensures { result ≡ is_consistent s.now }
{
    s.base < s.id
        && s.fence >= -1
        && is_below(s.fence, s.id)
        && s.appends <= s.id
        && s.full <= s.appends
}

/// Whether a number with its sign is below an id.
fn is_below(fence: i64, id: u64) -> bool
    ensures { result ≡ int_lt fence (pos id) }
{
    fence < 0 || (fence as u64) < id
}
