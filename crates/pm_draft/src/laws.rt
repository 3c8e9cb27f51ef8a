//! What holds of all drafts.

ghost use Rattle.std.specs.Prelude.{◌≡◌, ◌↔◌, ℕ, ◌+◌, ℤ, List, [], ◌∷◌, ◌++◌, length, false, if◌then◌else◌};
ghost use Rattle.std.specs.Prelude.{FitsSigned, None, Some, Ok, IsTrue};
ghost use Rattle.std.specs.Int.{w64};
ghost use Rattle.std.specs.List.{AllByRecursion};
ghost use Rattle.pm_input.specs.Blank.{is_blank};
ghost use Rattle.pm_input.specs.Lines.{numbered_rows};
ghost use Rattle.pm_schema.specs.declared.schema.TableSchema.{TableSchema};
ghost use Rattle.pm_draft.specs.Draft.{NumberedLine, draft_in, draft_line, later_line, IsFirstSchema};

use pm_schema::{declared_law, draft_law};

/// A schema that a draft has is one that a draft can declare, the first of a table with the given origin, made at the
/// given moment.
pub fn first_schema_law()
    ensures { (lines : List NumberedLine) (origin : List ℕ) (now : ℤ) (s : TableSchema) → FitsSigned w64 now
        → draft_in lines origin now ≡ Ok s → IsFirstSchema origin now s }
{
    draft_law();
    declared_law();
}

/// Of the lines of an input, the draft is the first, or the empty text where that is blank or there is none. The first
/// of the others that isn't blank is the later line, and there is none where all of them are blank.
pub fn draft_line_law()
    ensures none { (draft_line (numbered_rows []) ≡ []) × (later_line (numbered_rows []) ≡ None) }
    ensures draft { (line : List ℕ) (lines : List (List ℕ))
        → draft_line (numbered_rows (line ∷ lines)) ≡ (if is_blank line then [] else line) }
    ensures later { (first : List ℕ) (before : List (List ℕ)) (line : List ℕ) (after : List (List ℕ))
        → AllByRecursion (λ line. IsTrue (is_blank line)) before → is_blank line ≡ false
        → later_line (numbered_rows (first ∷ (before ++ line ∷ after))) ≡ Some (2 + length before) }
    ensures alone { (line : List ℕ) (lines : List (List ℕ)) → (later_line (numbered_rows (line ∷ lines)) ≡ None)
        ↔ AllByRecursion (λ line. IsTrue (is_blank line)) lines }
{}
