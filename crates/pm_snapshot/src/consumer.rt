//! A consumer, and its file both ways.

ghost use Rattle.std.specs.Prelude.{◌≡◌, ◌≤◌, IfOk, Ok, codes};
ghost use Rattle.pm_base.specs.Outcome.{Gives};
ghost use Rattle.serde_json.specs.Find.{get};
ghost use Rattle.serde_json.specs.View.{view};
ghost use Rattle.pm_snapshot.specs.Consumer.{fresh_from, next_from, consumer_from, consumer_in, consumer_data, consumer_text};
ghost use Rattle.pm_snapshot.specs.Fault.{fault_of};

use crate::fault::SnapFault;
use crate::field;
use serde_json::{Value as Json, json};
use std::alloc::{AllocError, Global};

/// A consumer of changelogs, as its file has it.
#[derive(Clone, Copy)]
pub struct Consumer {
    /// The next snapshot that it reads, at least 1.
    pub next: u64,
    /// Whether its registration hasn't ended: the state `new`.
    pub fresh: bool,
}

/// The consumer that the bytes of its file are. `Bad` comes exactly where they are none.
#[tactic(auto, unfolding(crate::specs::Consumer::consumer_in))]
pub fn read_consumer(alloc: Global, bytes: &[u8]) -> Result<Consumer, SnapFault>
    ensures exact { Gives (λ c. c) fault_of result (consumer_in bytes.now) }
    ensures next { IfOk result (λ c. 1 ≤ c.next) }
{
    let json = field::read_json(alloc, bytes)?;
    consumer_from(&json)
}

/// The consumer that JSON says.
fn consumer_from(json: &Json) -> Result<Consumer, SnapFault>
    ensures exact { Gives (λ c. c) fault_of result (consumer_from (view json.now)) }
    ensures next { IfOk result (λ c. 1 ≤ c.next) }
{
    let next = next_from(field::natural_at(json, "nextSnapshot")?)?;
    let fresh = fresh_from(json)?;
    Ok(Consumer { next, fresh })
}

/// The number where it may be that of a next snapshot.
fn next_from(n: u64) -> Result<u64, SnapFault>
    ensures exact { Gives (λ n. n) fault_of result (next_from n) }
    ensures next { IfOk result (λ n. 1 ≤ n) }
{
    if n > 0 { Ok(n) } else { Err(SnapFault::Bad) }
}

/// Whether the state says that the consumer is new.
fn fresh_from(json: &Json) -> Result<bool, SnapFault>
    ensures { Gives (λ b. b) fault_of result (fresh_from (get (codes "state") (view json.now))) }
{
    let Some(state) = json.get("state") else {
        return Ok(false);
    };
    match state.as_str() {
        Some("new") => Ok(true),
        _ => Err(SnapFault::Bad),
    }
}

/// The file of a consumer: compact JSON, on one line without a newline.
pub fn write_consumer(alloc: Global, c: &Consumer) -> Result<Vec<u8>, AllocError>
    ensures text { IfOk result (λ v. v.items ≡ consumer_text c.now) }
    ensures again { IfOk result (λ v. 1 ≤ c.now.next → consumer_in v.items ≡ Ok c.now) }
{
    json_of(alloc, *c)?.to_vec(alloc)
}

/// The JSON of a consumer.
fn json_of(alloc: Global, c: Consumer) -> Result<Json, AllocError>
    ensures { IfOk result (λ json. view json ≡ consumer_data c) }
{
    let next = c.next;
    if c.fresh {
        json!(in alloc; {"nextSnapshot": next, "state": "new"})
    } else {
        json!(in alloc; {"nextSnapshot": next})
    }
}
