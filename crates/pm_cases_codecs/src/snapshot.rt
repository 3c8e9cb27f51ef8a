//! Files of snapshots and of consumers, read.

use pm_base::Txt;
use pm_cases::Case;
use pm_snapshot::{
    CommitKind, Consumer, SnapFault, Snapshot, read_consumer, read_snapshot, write_consumer,
    write_snapshot,
};

/// Of the snapshot of a number that a text is, the fields, in the order that `Snapshot` has them, or with
/// `snapshot-text` the text that is written for it; or `bad`.
pub fn answer(case: &mut Case, codec: &str, arguments: &str) {
    let (id, text) = case.split(arguments);
    let id = case.number(id);
    let bytes = case.bytes(text);
    match read_snapshot(case.alloc(), id, &bytes) {
        Ok(snapshot) => answer_of(case, codec, snapshot),
        Err(fault) => say_fault(case, &fault),
    }
}

/// The same of a snapshot.
fn answer_of(case: &mut Case, codec: &str, snapshot: Snapshot) {
    if codec == "snapshot" {
        say_snapshot(case, &snapshot);
    } else {
        case.say_line(write_snapshot(case.alloc(), &snapshot));
    }
    drop(snapshot);
}

/// Of the consumer that a text is, the fields, or with `consumer-text` the text that is written for it; or `bad`.
pub fn consumer_answer(case: &mut Case, codec: &str, text: &str) {
    let bytes = case.bytes(text);
    match read_consumer(case.alloc(), &bytes) {
        Ok(consumer) => say_consumer(case, codec, &consumer),
        Err(fault) => say_fault(case, &fault),
    }
}

/// The same of a consumer.
fn say_consumer(case: &mut Case, codec: &str, consumer: &Consumer) {
    if codec == "consumer" {
        let Consumer { next, fresh } = consumer;
        case.say_made(format!(in case.alloc(); "[{next},{fresh}]"));
    } else {
        case.say_line(write_consumer(case.alloc(), consumer));
    }
}

/// Says a fault.
fn say_fault(case: &mut Case, fault: &SnapFault) {
    match fault {
        SnapFault::Memory => case.run_out(),
        SnapFault::Bad => case.say("bad"),
    }
}

/// Says the fields of a snapshot.
fn say_snapshot(case: &mut Case, s: &Snapshot) {
    case.say_made(format!(in case.alloc(); "[{},{},", s.id, s.schema_id));
    case.say_quoted(s.base_list.as_str());
    case.say(",");
    case.say_quoted(s.delta_list.as_str());
    case.say(",");
    say_optional_text(case, &s.changelog_list);
    case.say(",");
    case.say_quoted(s.user.as_str());
    case.say_made(format!(in case.alloc(); ",{},\"{}\",{}", s.ident, kind_name(s.kind), s.time));
    case.say_made(format!(in case.alloc(); ",{},{},", s.total, s.delta));
    case.say_optional(s.changelog);
    case.say(",");
    case.say_optional(s.watermark);
    case.say_made(format!(in case.alloc(); ",{},{}", s.base, s.fence));
    case.say_made(format!(in case.alloc(); ",{},{}]", s.appends, s.full));
}

/// Says a text, or `null`.
fn say_optional_text(case: &mut Case, text: &Option<Txt>) {
    match text {
        Some(text) => case.say_quoted(text.as_str()),
        None => case.say("null"),
    }
}

/// The kind of a commit, as files have it.
fn kind_name(kind: CommitKind) -> &'static str {
    match kind {
        CommitKind::Append => "APPEND",
        CommitKind::Compact => "COMPACT",
        CommitKind::Overwrite => "OVERWRITE",
        CommitKind::Analyze => "ANALYZE",
    }
}
