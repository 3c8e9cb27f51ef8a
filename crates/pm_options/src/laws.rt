//! What holds of all options that settings can state.

ghost use Rattle.std.specs.Prelude.{◌≡◌, List, Ok, codes, is_some, true};
ghost use Rattle.pm_options.specs.Entries.{entry_at};
ghost use Rattle.pm_options.specs.Fields.{by_name};
ghost use Rattle.pm_options.specs.Reading.{options_of};
ghost use Rattle.pm_options.specs.Stands.{Rises, Stands};
ghost use Rattle.pm_options.specs.Table.{Setting};
ghost use Rattle.pm_options.specs.Written.{settings_of};
ghost use Rattle.pm_options.specs.declared.options.Options.{Options};

/// What options are written as, in the order of the keys, is read as the same options. The settings that a file may
/// leave out stand there.
pub fn written_law()
    ensures again { (o : Options) → Stands o → options_of (by_name (settings_of o)) ≡ Ok o }
    ensures order { (o : Options) → Rises (by_name (settings_of o)) }
    ensures bucket { (o : Options) → is_some (entry_at (codes "bucket") (by_name (settings_of o))) ≡ true }
    ensures format { (o : Options) → is_some (entry_at (codes "file.format") (by_name (settings_of o))) ≡ true }
{}

/// Options that are read from settings in the order of their keys can be stated.
pub fn read_law()
    ensures { (settings : List Setting) (o : Options) → Rises settings → options_of settings ≡ Ok o → Stands o }
{}
