//! Laws of what views named. Each holds with no call.

ghost use Rattle.std.specs.Prelude.{◌↔◌, ℕ, List, [], ◌∷◌, ◌++◌, Contains};
ghost use Rattle.pm_expire_paths.specs.Dropping.{Adds, AreDropped, DroppingView, HasSeen, IsNamedIn};

/// The first view is seen once it was added, and each next one with those before; and what is dropped then is what some
/// view named and the last one doesn't.
pub fn seen_law()
    ensures first { (none d : DroppingView) (view : List (List ℕ)) → HasSeen [] [] none → Adds none view d
        → HasSeen [] view d }
    ensures next { (views : List (List (List ℕ))) (last view : List (List ℕ)) (d e : DroppingView)
        → HasSeen views last d → Adds d view e → HasSeen (views ++ last ∷ []) view e }
    ensures dropped { (views : List (List (List ℕ))) (last paths : List (List ℕ)) (d : DroppingView) (path : List ℕ)
        → HasSeen views last d → AreDropped d paths
        → Contains paths path ↔ (IsNamedIn views path × (Contains last path → ⊥)) }
{}
