//! What holds of the lines of all texts, and of writing a text.
ghost use Rattle.std.specs.Prelude.{◌≡◌, ◌≢◌, ℕ, ◌-◌, ◌≤◌, List, [], ◌∷◌, ◌++◌, length};
ghost use Rattle.pm_base.specs.Newline.{newline, IsUnbroken};
ghost use Rattle.pm_base.specs.Faults.{one_more};
ghost use Rattle.pm_io.specs.Memory.{Taking, IsCall};
ghost use Rattle.pm_io.specs.Sink.{Offered};
ghost use Rattle.pm_io.specs.Lines.{first_line, later_lines, has_newline, line_end, all_lines};

/// What determines the lines of a text, and its first line.
pub fn all_lines_law()
    ensures none { all_lines [] ≡ [] }
    ensures ended { (line rest : List ℕ) → IsUnbroken line
        → all_lines (line ++ (newline ∷ rest)) ≡ line ∷ all_lines rest }
    ensures last { (line : List ℕ) → IsUnbroken line → line ≢ [] → all_lines line ≡ line ∷ [] }
    ensures first { (text : List ℕ) → text ≢ [] → all_lines text ≡ first_line text ∷ all_lines (later_lines text) }
    ensures parts { (text : List ℕ) → text ≡ first_line text ++ line_end (has_newline text) (later_lines text) }
    ensures unbroken { (text : List ℕ) → IsUnbroken (first_line text) }
{}

/// A text that was offered whole to a sink in memory, which had room for it and took it, went there by one call.
pub fn one_call_law()
    ensures { (first last : Taking) (text : List ℕ) → text ≢ [] → length text ≤ first.room - length first.taken
        → Offered IsCall first text last [] → last.calls ≡ one_more first.calls }
{}
