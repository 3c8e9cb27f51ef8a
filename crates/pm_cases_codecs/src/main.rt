//! The cases of what no command shows by itself, a line in and a line out: each line of standard input names a codec,
//! or what else is tried, and its arguments, with a TAB between them, and the line that is printed for it is the
//! answer. Blank lines and lines that begin with `#` are printed as they are, so that both texts can be read side by
//! side. `pm_cases_stores` has the cases of streams and stores, `pm_cases_commands` those of commands.
//!
//! | Codec | Arguments | Answer |
//! |---|---|---|
//! | `avro-type` | the JSON of a type | the type's printed JSON |
//! | `avro-datum` | the JSON of a type, digits | the datum, how many bytes it took, its shortest spelling in digits |
//! | `avro-file` | digits | the first block's offset, the blocks, and `end` or a fault, which is asked for twice |
//! | `avro-write` | the JSON of a type, digits | the digits of a file of the datum, its block, the offset after it |
//! | `record` | the JSON of a type, names with commas, digits | what stands at the names; `none` or `no such fields` |
//! | `row` | columns as `NAME:TYPE` or `NAME:TYPE!`, a line | the printed row, or its fault with the column's index |
//! | `compare` | columns, two row lines | how the rows compare as keys, and as the groups of buckets 1 and 0 |
//! | `binary-row` | types with blanks between them, a row line or digits | the digits and their row, or `bad` |
//! | `hash` | the digits of a body, a number of buckets | the hash, and its bucket |
//! | `hex` | a text | the digits that are printed for the bytes that it reads as, and these bytes; or `none` |
//! | `date` | a text | the day that it reads as, and the text that is printed for it; or `none` |
//! | `partition-text` | a truth, a number, or `=` and a text | the text of the value before it is escaped |
//! | `kind` | a number | the kind's number, and whether it takes away; or `none` |
//! | `name` | `id`, `floor` or `base`, a name | the number that the name bears; or `none` |
//! | `names` | an actor, a base, another base | the first two names that are given, and the actor |
//! | `refusal` | its kind and its parts | its status and its line |
//! | `short-refusal` | the room of the sink, a refusal as before | its status, and what the sink takes of its line |
//! | `draft` | an origin, a blank and a moment; a text | the written schema of the draft; or its refusal |
//! | `schema` | a path, a text | the written schema of the file; or its refusal |
//! | `snapshot` | a number, a text | the fields of the snapshot that the text of the file of that number is; or `bad` |
//! | `snapshot-text` | a number, a text | the text that is written for this snapshot |
//! | `snapshot-name` | a number | the name of the file of the snapshot |
//! | `consumer` | a text | the fields of the consumer that it is; or `bad` |
//! | `consumer-text` | a text | the text that is written for this consumer |
//! | `live` | see below | the live files, each with the number of the entry that added it; after a refusal, if any |
//! | `levels` | words | the runs, newest first, and their sizes; `nothing`, or the file that overlaps another |
//! | `picked` | what is asked and four numbers, sizes | the choice of a compaction; or `none` |
//! | `folder` | a bucket, a draft without partition columns | the path of the group's folder |
//! | `manifest-list` | a draft, a path, digits | the manifests, and what is written for them; or the refusal |
//! | `manifest` | a draft, a path, digits | the entries, and what is written for them; or the refusal |
//! | `list-blocks` | a draft, numbers | how many records each block has of a written list, its sum; or the refusal |
//! | `manifest-blocks` | a draft, numbers | the same of a written manifest |
//! | `run-file` | a draft, a path, a schema's id, `data` or `changes`, digits | what is read; or the refusal |
//! | `write-run` | a draft, a level, a limit, rows | the files, each with what is read of it; or the refusal |
//! | `write-changes` | a draft, row lines | the file, with what is read of it; or the refusal |
//! | `long-run` | a count, a limit | the files, each with what is read of it; or the refusal |
//! | `timed-run` | a count | in how many milliseconds such a run is written and read, for a script of `bench/` |
//! | `long-merge` | a count, how many runs, `spread` or `same` | the files that they become, as of `long-run` |
//! | `timed-merge` | the same | their sums; in how many milliseconds they are read and rewritten; the sums then |
//! | `look-up` | a count, a limit, how many blocks may be kept, a file, keys | what is found of each; or the refusal |
//! | `merge` | a draft, `keep` or `drop`, runs | the rows of the run that they are made into; or `nothing` |
//!
//! The argument of `live` is manifests with `;` between them. The entries of one are words: `+NAME@LEVEL/BUCKET` adds a
//! file, and `-` in the place of `+` deletes one. Entries are numbered from 1.
//!
//! A word of `levels` is a file, `NAME@LEVEL/LEAST-GREATEST/SEQUENCE/SIZE`, with numbers as keys and the greatest
//! sequence number. A run is printed as `LEVEL:NAMES`, its size as `LEVEL:BYTES`.
//!
//! What is asked of `picked` is `full`, `level-zero` or `no`, and the numbers are the trigger, the amplification, the
//! ratio and the number of levels, with a blank between each two. A size is `LEVEL:BYTES`; that of the newest run comes
//! first.
//!
//! A file of manifests is that of the draft's table. A manifest of a list is printed as
//! `["NAME",SIZE,ADDS,DELETES,SCHEMA]`, and an entry as
//! `["ADD",PARTITION,BUCKET,BUCKETS,"NAME",SIZE,ROWS,KEY,KEY,SEQUENCE,SEQUENCE,SCHEMA,LEVEL,TIME]`, or with `"DELETE"`;
//! the least key and sequence number stand first. A partition and a key are lists of values, in which bytes are `#` and
//! their digits, a day is `day` and its number, and a moment `ms` and its number. The file that is written for these
//! has the last 16 bytes of the one that was read as its marker. It is `same` where it is that file, else its sum: its
//! length, and a checksum of 32 bits that begins as 0 and for each byte becomes 31 times itself and the byte.
//!
//! The numbers of `list-blocks` are how many manifests are written, and SIZE, ADDS, DELETES and SCHEMA of each; those
//! of `manifest-blocks` how many entries, and SIZE, ROWS, SEQUENCE, SEQUENCE, SCHEMA and LEVEL of each. The name and
//! the key of a file are its index, and the even ones are ADDs. The marker is 16 zero bytes. After the blocks stands
//! `end`.
//!
//! A row of `write-run` and `merge` is `NUMBER:LINE`, its sequence number and its row line; rows have a TAB between
//! each two. Runs have `;` between each two, the oldest first, and the keys of each rise; where no TAB follows `keep`
//! or `drop`, there is no run. The rows of `write-changes` have the numbers from 0 on. Those of `long-run` have the
//! keys from 1 on, each its key as its number, and `v` and its key as its text; in such a run at level 5 the keys of
//! `look-up` are looked up, one after another, with a TAB between each two. Of the file of that name, if there is one,
//! the last byte is another. What is found is the line of the key's row, or `none`.
//!
//! The runs of `long-merge` have so many rows together, and a file each. Their keys count from 1 on: where they are
//! `spread` each stands in one run, which a hash of it tells, else all stand in each run. The rows are numbered from 1
//! on, run by run, and the text of each is `v` and its number. They are rewritten at level 5, without the droppable
//! ones. The sums of files are how many rows, bytes and files they are, and a sum of their checksums.
//!
//! What is read of a file of rows is each row and a TAB, then `end` or the refusal; and after a TAB each block, as
//! `OFFSET:ROWS` and a blank, and again `end` or the refusal. A row is printed as `KEY NUMBER:LINE`; a key as the array
//! of its values, as they stand in a row line. A written file is
//! `NAME SIZE ROWS KEY KEY SEQUENCE SEQUENCE SCHEMA LEVEL TIME`, the least key and number first, and after a TAB its
//! digits; for `long-run` its checksum, and in the place of the rows how many there are. Its session is sixteen times
//! 7, its actor 2, and its base 5.
//!
//! Digits are hexadecimal. Any other argument is the text itself, or `0x` and the digits of its bytes.
#![tactic(auto)]

mod binary_row;
mod file;
mod folder;
mod levels;
mod live;
mod manifest;
mod manifest_blocks;
mod picked;
mod record_text;
mod refusal;
mod row;
mod schema;
mod snapshot;
mod table;
mod text;

use pm_cases::Case;
use pm_cases_avro::{avro_answer, avro_file_answer};
use pm_cases_runs::DRAFT;
use std::alloc::AllocError;
use std::io;

/// Answers each line of standard input.
fn main(rt: HostRuntime) -> io::Result<()> {
    for line in rt.lines(rt.alloc()) {
        let answer = answer(&rt, line?.as_str())?;
        println!(rt; "{answer}")?;
    }
    Ok(())
}

/// What is printed for a line.
fn answer(rt: &HostRuntime, line: &str) -> Result<String, AllocError> {
    let mut case = Case::new(rt.alloc());
    if line.is_empty() || line.starts_with('#') {
        case.say(line);
    } else {
        let (codec, arguments) = line.split_once('\t').unwrap_or((line, ""));
        answer_text(rt, &mut case, codec, arguments);
    }
    case.into_answer()
}

/// What is answered of a text, a row or a name, or else of what is tried.
fn answer_text(rt: &HostRuntime, case: &mut Case, codec: &str, arguments: &str) {
    match codec {
        "row" => row::answer(case, arguments),
        "compare" => row::compare_answer(case, arguments),
        "binary-row" => binary_row::answer(case, arguments),
        "hash" => binary_row::hash_answer(case, arguments),
        "hex" => text::hex_answer(case, arguments),
        "date" => text::date_answer(case, arguments),
        "partition-text" => text::partition_answer(case, arguments),
        "kind" => text::kind_answer(case, arguments),
        "name" => text::name_answer(case, arguments),
        "names" => text::names_answer(case, arguments),
        "refusal" => refusal::answer(case, arguments),
        "short-refusal" => refusal::short_answer(case, arguments),
        _ => answer_file(rt, case, codec, arguments),
    }
}

/// What is answered of a file, or else of what is tried.
fn answer_file(rt: &HostRuntime, case: &mut Case, codec: &str, arguments: &str) {
    match codec {
        "avro-type" | "avro-datum" | "avro-write" | "record" => avro_answer(case, codec, arguments),
        "avro-file" => avro_file_answer(case, arguments),
        "draft" => schema::draft_answer(case, arguments),
        "schema" => schema::answer(case, arguments),
        "snapshot" | "snapshot-text" => snapshot::answer(case, codec, arguments),
        "snapshot-name" => text::snapshot_name_answer(case, arguments),
        "consumer" | "consumer-text" => snapshot::consumer_answer(case, codec, arguments),
        "live" => live::answer(case, arguments),
        "levels" => levels::answer(case, arguments),
        "picked" => picked::answer(case, arguments),
        _ => answer_table(rt, case, codec, arguments),
    }
}

/// What is answered of a table, where one is tried.
fn answer_table(rt: &HostRuntime, case: &mut Case, codec: &str, arguments: &str) {
    let (first, rest) = arguments.split_once('\t').unwrap_or((arguments, ""));
    match codec {
        "folder" => table::answer(rt, case, codec, rest, first),
        "manifest-list"
        | "manifest"
        | "list-blocks"
        | "manifest-blocks"
        | "run-file"
        | "write-run"
        | "write-changes"
        | "merge" => table::answer(rt, case, codec, first, rest),
        "long-run" | "timed-run" | "long-merge" | "timed-merge" | "look-up" => {
            table::answer(rt, case, codec, DRAFT, arguments)
        }
        _ => case.reject(),
    }
}
