//! Laws of consumers, floors and expiry, whoever acts. Each holds with no call.

ghost use Rattle.std.specs.Prelude.{◌≡◌, ◌≢◌, ◌⊎◌, ℕ, suc, ◌≤◌, ◌<◌, List, [], ◌∷◌, ◌++◌, Bool, Contains};
ghost use Rattle.std.specs.Prelude.{Some, None, false, true};
ghost use Rattle.pm_model_consumers.specs.Changes.{Change, Claims, HasLost, IsUnsettled, Puts};
ghost use Rattle.pm_model_consumers.specs.Changes.{SameConsumers, SameFloors, SameFrames, SameSnapshots, SameTable};
ghost use Rattle.pm_model_consumers.specs.Claims.{AreMoved, Counts, Follower, HasFloorFrom, Holds, IsFloor, Moment};
ghost use Rattle.pm_model_consumers.specs.Claims.{Said, free, known_at, new_at, settled, waits};
ghost use Rattle.pm_model_consumers.specs.Expiry.{HasAnnounced, HasLeft};
ghost use Rattle.pm_model_consumers.specs.Known.{HasRegistered, WaitsAt};

/// A moment at which nothing is known of any name but that some are settled holds what each moment does, where the
/// least snapshot is announced and those settled ones need none that went.
pub fn begins_law()
    ensures { (m : Moment) → m.least ≤ m.newest → (m.least ≤ 1) ⊎ HasFloorFrom m m.least
        → ((name : List ℕ) → (m.claim name ≡ free) ⊎ ((n : ℕ) × (m.claim name ≡ settled n [])
        × (m.file name ≡ Some (known_at n)) × (m.least ≤ n))) → Holds m }
{}

/// Each kind of change keeps what holds.
pub fn kept_law()
    ensures { (me : Follower) (m n : Moment) → Holds m → Change me m n → Holds n }
{}

/// The file of a consumer that counts is there, and its number is at least the least snapshot.
pub fn least_law()
    ensures { (m : Moment) (name : List ℕ) → Holds m → Counts (m.claim name)
        → (said : Said) × (m.file name ≡ Some said) × (m.least ≤ said.next) }
{}

/// A settled consumer stays so until its file goes: as it is, or one frame further, that of its number.
pub fn settled_law()
    ensures stays { (me : Follower) (m n : Moment) (name : List ℕ) (from next : ℕ) (moved : List (List ℕ)) → Holds m
        → Change me m n → m.claim name ≡ settled from moved → m.file name ≡ Some (known_at next)
        → (n.file name ≡ None) ⊎ ((n.claim name ≡ settled from moved) × (n.file name ≡ Some (known_at next)))
        ⊎ ((n.claim name ≡ settled from (moved ++ m.frame next ∷ [])) × (n.file name ≡ Some (known_at (suc next)))) }
    // so the frames that it was moved past are those from where it came to be, and its number is one above the last
    ensures frames { (m : Moment) (name : List ℕ) (from : ℕ) (moved : List (List ℕ)) → Holds m
        → m.claim name ≡ settled from moved
        → (next : ℕ) × (m.file name ≡ Some (known_at next)) × AreMoved m from moved next }
{}

/// What a follower knows of the name that it registers stays, whatever others do, and its own steps lead on.
pub fn follower_law()
    ensures kept { (me other : Follower) (m n : Moment) (name : List ℕ) (next : ℕ) (listed : Bool) → other ≢ me
        → Change other m n → HasRegistered me name next listed m → HasRegistered me name next listed n }
    // it puts its number into the file of a name that isn't settled: it waits
    ensures registers { (me : Follower) (m n : Moment) (name : List ℕ) (next : ℕ) → 1 ≤ next → next ≤ suc m.newest
        → SameTable m n → IsUnsettled (m.file name) → Puts m name (Some (new_at next)) n
        → Claims m name (waits me false) n → Change me m n × HasRegistered me name next false n }
    // it lists the floors, none of which exceeds its number: it waits with them listed, where it still waits
    ensures lists { (me : Follower) (m n : Moment) (name : List ℕ) (next : ℕ) → SameTable m n
        → ((other : List ℕ) → n.file other ≡ m.file other) → ((k : ℕ) → IsFloor m k → k ≤ next)
        → (WaitsAt me name next false m → Claims m name (waits me true) n)
        → (HasLost me (m.claim name) → SameConsumers m n)
        → HasRegistered me name next false m → Change me m n × HasRegistered me name next true n }
    // it settles what the file still says: its consumer is settled then where it still waited, and free else
    ensures settles { (me : Follower) (m n : Moment) (name : List ℕ) (next : ℕ) → SameTable m n
        → m.file name ≡ Some (new_at next) → Puts m name (Some (known_at next)) n
        → (WaitsAt me name next true m → Claims m name (settled next []) n)
        → (HasLost me (m.claim name) → Claims m name free n)
        → HasRegistered me name next true m → Change me m n }
    // while it waits, only its settling makes its file one that isn't new, and that once it listed the floors
    ensures own { (me : Follower) (m n : Moment) (name : List ℕ) (listed : Bool) (k : ℕ) → Holds m → Change me m n
        → m.claim name ≡ waits me listed → n.file name ≡ Some (known_at k)
        → (listed ≡ true) × (n.claim name ≡ settled k []) }
{}

/// What an expirer knows stays, whatever others do, and its own steps lead on.
pub fn expirer_law()
    ensures announced { (me : Follower) (m n : Moment) (end : ℕ) → Change me m n → HasAnnounced m end
        → HasAnnounced n end }
    ensures left { (me : Follower) (m n : Moment) (end : ℕ) (names : List (List ℕ)) → Holds m
        → Change me m n → HasLeft m end names → HasLeft n end names }
    // it announces its end
    ensures announces { (me : Follower) (m n : Moment) (end : ℕ) → end ≤ m.newest → SameConsumers m n
        → SameSnapshots m n → IsFloor n end → ((other : ℕ) → other ≢ end → n.floor other ≡ m.floor other)
        → Change me m n × HasAnnounced n end }
    // it lists the consumers
    ensures lists { (m : Moment) (end : ℕ) (names : List (List ℕ)) → HasAnnounced m end
        → ((name : List ℕ) → m.file name ≢ None → Contains names name) → HasLeft m end names }
    // it reads the file of one, and lowers its end to the number, or less: but where a snapshot at the number went
    ensures reads { (m : Moment) (end lower : ℕ) (name : List ℕ) (names : List (List ℕ)) (said : Said) → Holds m
        → HasLeft m end (name ∷ names) → m.file name ≡ Some said → lower ≤ end
        → (lower ≤ said.next) ⊎ (said.next < m.least) → HasLeft m lower names }
    // or finds that it has gone
    ensures absent { (m : Moment) (end : ℕ) (name : List ℕ) (names : List (List ℕ))
        → HasLeft m end (name ∷ names) → m.file name ≡ None → HasLeft m end names }
{}

/// With no file left to read, the least snapshot below its end may go.
pub fn expires_law()
    ensures { (me : Follower) (m n : Moment) (end : ℕ) → HasLeft m end [] → m.least < end
        → SameConsumers m n → SameFloors m n → SameFrames m n → n.least ≡ suc m.least → n.newest ≡ m.newest
        → Change me m n }
{}
