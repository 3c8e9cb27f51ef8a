//! What holds of the runs of any files.

ghost use Rattle.std.specs.Prelude.{◌≡◌, ◌≢◌, ◌⊎◌, ℕ, ◌≤◌, List, ◌∷◌, ◌++◌, map, Some, Contains};
ghost use Rattle.std.specs.List.{AllByRecursion};
ghost use Rattle.std.specs.List.Sorted.{IsPermutation};
ghost use Rattle.pm_values.specs.declared.file_meta.FileMeta.{FileMeta};
ghost use Rattle.pm_levels.specs.declared.choice.Asked.{Asked};
ghost use Rattle.pm_levels.specs.declared.choice.Pick.{Pick};
ghost use Rattle.pm_levels.specs.declared.choice.PickRule.{PickRule};
ghost use Rattle.pm_levels.specs.Overlap.{AreDisjoint, IsFirstOverlap, IsOverlap, RangesRise};
ghost use Rattle.pm_levels.specs.Picking.{IsChoice, picked, top_of};
ghost use Rattle.pm_levels.specs.Runs.{AreNamedApart, AreRuns, AreTwoOf, IsNewerThan, LevelsRise, MakePlace};
ghost use Rattle.pm_levels.specs.Runs.{RunView, files_of, lone};
ghost use Rattle.pm_levels.specs.Sizes.{size_of};

/// Where no two files of one level have one name, the same files have the same runs, in whichever order they come.
pub fn runs_law()
    ensures { (files more : List FileMeta) (runs others : List RunView) → AreNamedApart files →
        IsPermutation files more → AreRuns files runs → AreRuns more others → runs ≡ others }
{}

/// Where no two files share a key range, the ranges of each run above level 0 rise.
pub fn ranges_law()
    ensures { (files : List FileMeta) (runs : List RunView) → AreRuns files runs → AreDisjoint files →
        AllByRecursion RangesRise runs }
{}

/// Where a file shares a key range with another one, the files aren't disjoint; and the same files, in whichever order
/// they come, have the same first such file.
pub fn overlap_law()
    ensures either { (files : List FileMeta) (file : FileMeta) → IsOverlap files file → AreDisjoint files → ⊥ }
    ensures same { (files more : List FileMeta) (file : FileMeta) → IsPermutation files more →
        IsFirstOverlap files file → IsFirstOverlap more file }
{}

/// A file that is newer than all others at level 0 is their newest run, by itself. It shares its keys with none where
/// these don't, and its name with none of its level where it is another one. Two of all files are that one and another,
/// or two others.
pub fn newest_law()
    ensures runs { (file : FileMeta) (files : List FileMeta) (runs : List RunView) → IsNewerThan file files →
        AreRuns files runs → AreRuns (file ∷ files) (lone file ∷ runs) }
    ensures named { (file : FileMeta) (files : List FileMeta) → ((other : FileMeta) → Contains files other →
        other.level ≡ file.level → other.name ≢ file.name) → AreNamedApart files → AreNamedApart (file ∷ files) }
    ensures two { (file : FileMeta) (files : List FileMeta) (a b : FileMeta) → AreTwoOf a b (file ∷ files) →
        ((a ≡ file) × Contains files b) ⊎ ((b ≡ file) × Contains files a) ⊎ AreTwoOf a b files }
    ensures disjoint { (file : FileMeta) (files : List FileMeta) → file.level ≡ 0 → AreDisjoint files →
        AreDisjoint (file ∷ files) }
{}

/// What is chosen of a group's runs are the newest ones. None of them is above the level that they go to, each of the
/// others is, and they are all runs exactly where that is the highest level.
pub fn pick_law()
    ensures { (rule : PickRule) (asked : Asked) (runs : List RunView) (pick : Pick) → 1 ≤ rule.trigger →
        1 ≤ top_of rule → LevelsRise runs → AllByRecursion (λ (run : RunView). run.level ≤ top_of rule) runs →
        picked (map size_of runs) asked rule ≡ Some pick → IsChoice (top_of rule) runs pick }
{}

/// Where runs that stand together make place for at most one, at a level above those of the newer runs and below those
/// of the older ones, the files then are these newer runs, that one and these older ones. They share keys and names no
/// more than before.
pub fn replaced_law()
    ensures runs { (files after : List FileMeta) (later taken made older : List RunView) (out : ℕ) →
        MakePlace files later taken made older out → IsPermutation after (files_of (later ++ (made ++ older))) →
        AreRuns after (later ++ (made ++ older)) }
    ensures disjoint { (files after : List FileMeta) (later taken made older : List RunView) (out : ℕ) →
        MakePlace files later taken made older out → IsPermutation after (files_of (later ++ (made ++ older))) →
        AreDisjoint files → AreDisjoint (files_of made) → AreDisjoint after }
    ensures named { (files after : List FileMeta) (later taken made older : List RunView) (out : ℕ) →
        MakePlace files later taken made older out → IsPermutation after (files_of (later ++ (made ++ older))) →
        AreNamedApart files → AreNamedApart (files_of made) → AreNamedApart after }
{}
