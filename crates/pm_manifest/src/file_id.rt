//! By what a file is known.

ghost use Rattle.std.specs.Prelude.{◌≡◌};
ghost use Rattle.std.specs.Cmp.{partial_equiv_from_equiv};
ghost use Rattle.pm_manifest.specs.FileId.{id_eq, id_equiv, hash_input, hashed_alike};

use pm_base::Txt;
use pm_values::Group;
use std::hash::{Hash, Hasher};

/// A file, as entries name it. The same name at another level is another file.
pub struct FileId {
    /// The group that it is of.
    pub group: Group,
    /// Its name in the group's folder.
    pub name: Txt,
    /// The level of its run.
    pub level: u32,
}

impl Drop for FileId {
    fn drop(self) {
        let FileId { group, name, level } = self;
    }
}

impl PartialEq for FileId {
    ghost eq = { id_eq };

    ghost laws = { partial_equiv_from_equiv id_equiv };

    fn eq(&self, other: &FileId) -> bool {
        self.name == other.name && self.level == other.level && self.group == other.group
    }
}

impl Eq for FileId {
    ghost laws = { id_equiv };
}

/// A hash is taken of the name and the level alone: names of files are new ones, so groups seldom share one.
impl Hash for FileId {
    ghost hash_input = { hash_input };

    ghost respects_eq = { hashed_alike };

    fn hash<H: Hasher>(&self, state: &mut H) {
        self.name.as_str().hash(state);
        self.level.hash(state);
    }
}
