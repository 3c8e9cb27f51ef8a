//! What is asked of a reader, and what it has found out before it reads a snapshot.

ghost use Rattle.std.specs.Prelude.{◌≡◌};
ghost use Rattle.pm_schema.specs.Again.{IsDeclared};
ghost use Rattle.pm_read_table.specs.Asked.{asked_of, sought_of};

use pm_schema::TableSchema;
use std::marker::Model;

/// Which snapshot of a table, and what of it: the latest, or the one with that id; or the latest with the entries of
/// its live files; or the one with that id with these entries, without a listing of the snapshots.
#[derive(Clone, Copy)]
pub enum Wanted {
    Newest,
    At { id: u64 },
    Entries,
    Whole { id: u64 },
}

/// What is asked of a reader: a table, by its schema, and which snapshot of it.
#[derive(Drop)]
pub struct Asked {
    pub(crate) schema: TableSchema,
    pub(crate) wanted: Wanted,
}

impl Model for Asked {
    ghost use Rattle.pm_schema.specs.Again.{IsDeclared};
    ghost use Rattle.pm_read_table.specs.Asked as specs;
    ghost use Rattle.pm_read_table.specs.Asked.{asked_of};

    ghost Value = { specs.Asked };

    ghost view = { λ a. asked_of a.schema a.wanted };

    ghost invariant = { λ a. IsDeclared a.schema };
}

impl Asked {
    /// This snapshot of the table with a schema that a file declares.
    pub fn new(schema: TableSchema, wanted: Wanted) -> Asked
        requires { IsDeclared schema }
        ensures { result ≡ asked_of schema wanted }
    {
        Asked { schema, wanted }
    }

    /// The table's schema.
    pub(crate) fn schema(&self) -> &TableSchema
        ensures schema { result.now ≡ self.now.schema }
        ensures declared { IsDeclared result.now }
    {
        &self.schema
    }
}

/// What is asked, and the ids of the snapshots that were listed, rising.
#[derive(Drop)]
pub struct Sought {
    pub(crate) asked: Asked,
    pub(crate) listed: Vec<u64>,
}

impl Model for Sought {
    ghost use Rattle.pm_read_table.specs.Asked.{sought_of, SoughtView};

    ghost Value = { SoughtView };

    ghost view = { λ q. sought_of q.asked q.listed.items };
}

impl Sought {
    /// What is asked, with these ids.
    pub(crate) fn new(asked: Asked, listed: Vec<u64>) -> Sought
        ensures { result ≡ sought_of asked listed.items }
    {
        Sought { asked, listed }
    }

    /// Which snapshot is asked for.
    pub(crate) fn wanted(&self) -> Wanted
        ensures { result ≡ self.now.asked.wanted }
    {
        self.asked.wanted
    }

    /// The table's schema.
    pub(crate) fn schema(&self) -> &TableSchema
        ensures schema { result.now ≡ self.now.asked.schema }
        ensures declared { IsDeclared result.now }
    {
        self.asked.schema()
    }

    /// What is asked.
    pub(crate) fn into_asked(self) -> Asked
        ensures { result ≡ self.asked }
    {
        let Sought { asked, listed } = self;
        drop(listed);
        asked
    }
}
