//! What a try makes.

ghost use Rattle.std.specs.Prelude.{◌≡◌, ◌⊎◌, ◌+◌, length, None, Some, IfOk, IfErr, OnOk};
ghost use Rattle.pm_values.specs.declared.refusal.Refusal.TheVariants.{Memory};
ghost use Rattle.pm_made.specs.Files.{IsMadeOf};
ghost use Rattle.pm_made.specs.Refusals.{refusal_of};
ghost use Rattle.pm_commit.specs.Committer.{MayMake};
ghost use Rattle.pm_commit.specs.Own.{with_named};

use crate::found::Found;
use crate::own::Own;
use pm_made::{Made, make};
use pm_values::Refusal;
use std::alloc::Global;

impl Own {
    /// What its commit after the newest snapshot puts into the folder.
    pub(crate) fn make(&mut self, alloc: Global, found: &Found) -> Result<Made, Refusal>
        requires { MayMake self.old found.now }
        ensures made { IfOk result (IsMadeOf found.now.schema found.now.newest self.old.author self.old.intent
            self.old.names) }
        ensures allowed { OnOk result (refusal_of found.now.newest self.old.author self.old.intent ≡ None) }
        ensures refused { IfErr result (λ e. (e ≡ Memory)
            ⊎ (refusal_of found.now.newest self.old.author self.old.intent ≡ Some e)) }
        ensures named { IfOk result (λ made.
            self.new ≡ with_named (self.old.names.count + length made.files.items) self.old) }
    {
        make(
            alloc,
            &found.schema,
            &found.newest,
            &self.author,
            &mut self.intent,
            &mut self.names,
        )
    }
}
