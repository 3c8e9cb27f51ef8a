//! What holds of all words.

ghost use Rattle.std.specs.Prelude.{◌≡◌, ℕ, List};
ghost use Rattle.pm_words.specs.Words.{Give};
ghost use Rattle.pm_words.specs.declared.command.Command.{Command};

/// No words give two commands.
pub fn one_command_law()
    ensures { (words : List (List ℕ)) (one other : Command) → Give words one → Give words other → one ≡ other }
{}
