//! Laws of what an expirer knows. Each holds with no call but of laws of crates below.

ghost use Rattle.std.specs.Prelude.{◌≡◌, ◌≢◌, ◌≤◌, ◌<◌, ℕ, List, [], ◌∷◌, Contains, Some, None, IsSome};
ghost use Rattle.std.specs.FinMap as map;
ghost use Rattle.std.specs.List.{AllByRecursion};
ghost use Rattle.pm_store.specs.Files.{Files, Puts};
ghost use Rattle.pm_schema.specs.declared.schema.TableSchema.{TableSchema};
ghost use Rattle.pm_snapshot.specs.declared.consumer.Consumer.{Consumer};
ghost use Rattle.pm_model_consumers.specs.Claims.{Counts};
ghost use Rattle.pm_model_history.specs.History.{IsTableOf};
ghost use Rattle.pm_model_folder.specs.Changes.{Actor, HavePlainNames};
ghost use Rattle.pm_model_folder.specs.Commits.{Names};
ghost use Rattle.pm_model_folder.specs.Consumers.{said_at};
ghost use Rattle.pm_model_folder.specs.Ledger.{Advances, IsKnown, Past, Stands, count_of};
ghost use Rattle.pm_model_folder.specs.Meaning.{ConsumerAt};
ghost use Rattle.pm_model_folder.specs.Paths.{floor_path};
ghost use Rattle.pm_model_expiry.specs.Expiry.{HasAnnounced, HasLeft, HaveGone, HaveGoneBetween, IsDropped, lowered};
ghost use Rattle.pm_model_expiry.specs.Removals.{Expiry, KnowsRemovals, removals};

use pm_model_consumers::expirer_law;
use pm_model_contents::{one_contents_law, same_law};
use pm_model_folder::{consumers_law, steps_law};

/// What an expirer knows stays true through each kind of change of every actor.
pub fn known_law()
    ensures announced { (me : Actor) (f after : Files) (p q : Past) (s : TableSchema) (end : ℕ) → Stands f p
        → Advances me f p after q → IsTableOf s p.history → HasAnnounced f p end → HasAnnounced after q end }
    ensures left { (me : Actor) (f after : Files) (p q : Past) (s : TableSchema) (end : ℕ) (names : List (List ℕ))
        → Stands f p → Advances me f p after q → IsTableOf s p.history → HasLeft f p end names
        → HasLeft after q end names }
    ensures gone { (me : Actor) (f after : Files) (p q : Past) (s : TableSchema) (id : ℕ) → Stands f p
        → Advances me f p after q → IsTableOf s p.history → HaveGone f s id → HaveGone after s id }
    ensures between { (me : Actor) (f after : Files) (p q : Past) (s : TableSchema) (id : ℕ) → Stands f p
        → Advances me f p after q → IsTableOf s p.history → HaveGoneBetween f p s id → HaveGoneBetween after q s id }
    ensures dropped { (me : Actor) (f after : Files) (p q : Past) (s : TableSchema) (end : ℕ) (path : List ℕ)
        → Advances me f p after q → IsDropped p s end path → IsDropped q s end path }
    // so does all that it knows while it removes
    ensures removals { (x : Expiry) (left : List (List ℕ)) (me : Actor) (f after : Files) (p q : Past) → Stands f p
        → Advances me f p after q → KnowsRemovals x left f p → KnowsRemovals x left after q }
{
    consumers_law();
    expirer_law();
    pm_model_consumers::kept_law();
}

/// An expirer announces its end by a floor, which is at most the newest snapshot, whether it appears or is there.
pub fn announces_law()
    ensures change { (me : Actor) (f after : Files) (p : Past) (s : TableSchema) (end : ℕ) (found : List ℕ)
        → Stands f p → IsTableOf s p.history → HavePlainNames s → end ≤ count_of p.history
        → map.get f (floor_path end) ≡ None → Puts f (floor_path end) (Some found) after → Advances me f p after p }
    ensures known { (f : Files) (p : Past) (s : TableSchema) (end : ℕ) → Stands f p → IsTableOf s p.history
        → end ≤ count_of p.history → IsSome (map.get f (floor_path end)) → HasAnnounced f p end }
{
    steps_law();
}

/// Once that is announced it lists all consumers, and reads their files one after another.
pub fn reads_law()
    ensures lists { (f : Files) (p : Past) (end : ℕ) (names : List (List ℕ)) → HasAnnounced f p end
        → ((name : List ℕ) → said_at f name ≢ None → Contains names name) → HasLeft f p end names }
    ensures reads { (f : Files) (p : Past) (end : ℕ) (name : List ℕ) (names : List (List ℕ))
        → HasLeft f p end (name ∷ names) → HasLeft f p (lowered end (said_at f name)) names }
{}

/// Then no consumer that counts needs a snapshot below its end, whoever registers meanwhile.
pub fn spared_law()
    ensures { (f : Files) (p : Past) (end : ℕ) (name : List ℕ) (c : Consumer) → HasLeft f p end []
        → Counts (p.claims name) → ConsumerAt f name c → end ≤ c.next }
{}

/// A path that is dropped is named by no snapshot from the end on, of those that were committed and of those to come:
/// for it stays dropped through each kind of change of every actor (`dropped` of `known_law`).
pub fn never_law()
    ensures { (f : Files) (p : Past) (s : TableSchema) (end id : ℕ) (path : List ℕ) → Stands f p
        → IsTableOf s p.history → IsDropped p s end path → IsKnown p id → end ≤ id → Names (p.stood id) s id path → ⊥ }
{}

/// And it removes one path after another: each remove is a change of some kind, and leaves what is to be removed after
/// it.
pub fn removes_law()
    ensures begins { (x : Expiry) (dropped : List (List ℕ)) (floors : List ℕ) (f : Files) (p : Past)
        → IsTableOf x.schema p.history → HavePlainNames x.schema → HasAnnounced f p x.own → HasLeft f p x.end []
        → 1 ≤ x.first → x.first < x.end → HaveGoneBetween f p x.schema x.first
        → AllByRecursion (IsDropped p x.schema x.end) dropped → AllByRecursion (λ n. n < x.own) floors
        → KnowsRemovals x (removals x dropped floors) f p }
    ensures change { (x : Expiry) (path : List ℕ) (rest : List (List ℕ)) (me : Actor) (f after : Files) (p : Past)
        → Stands f p → KnowsRemovals x (path ∷ rest) f p → IsSome (map.get f path) → Puts f path None after
        → Advances me f p after p }
    ensures rest { (x : Expiry) (path : List ℕ) (rest : List (List ℕ)) (f after : Files) (p : Past) → Stands f p
        → KnowsRemovals x (path ∷ rest) f p → Puts f path None after → KnowsRemovals x rest after p }
{
    consumers_law();
    expirer_law();
    pm_model_consumers::kept_law();
    one_contents_law();
    same_law();
    steps_law();
}
