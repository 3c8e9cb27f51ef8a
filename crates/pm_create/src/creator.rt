//! The maker of a table.

ghost use Rattle.std.specs.Prelude.{◌≡◌, ◌+◌, ◌<◌, Some, IfOk, OnOk, OnErr};
ghost use Rattle.pm_create.specs.Creator.{actor_of, calls_left, new_creator};
ghost use Rattle.pm_create.specs.Creator.{IsCreator, Reaches};
ghost use Rattle.pm_create.specs.declared.phase.Phase.TheVariants as phases;
ghost use Rattle.pm_create.specs.Meaning.{CreatorMoved};
ghost use Rattle.pm_create.specs.Trace.{CreatorActed};
ghost use Rattle.pm_model_folder.specs.Changes.{origin_name};
ghost use Rattle.pm_schema.specs.Again.{IsDeclared};
ghost use Rattle.pm_store.specs.Store.{IsLater};

use crate::names::origin_name;
use crate::phase::Phase;
use pm_base::Blob;
use pm_machine::{Running, make_step};
use pm_paths::snapshot_file;
use pm_schema::{TableSchema, declared_law, schema_law};
use pm_schema_file::write_schema;
use pm_store::FileStore;
use pm_values::Refusal;
use std::alloc::{AllocError, Global};
use std::marker::Model;

/// What a step of a creator reached: it goes on, or the table is made.
#[derive(Clone, Copy)]
pub enum CreateStep {
    More,
    Created,
}

/// Makes a table, a call of the store a step. The table stands beside the phases, which don't hold it to the end.
#[derive(Drop)]
pub struct Creator {
    session: [u8; 16],
    actor: u32,
    schema: TableSchema,
    running: Running<Phase>,
}

impl Model for Creator {
    ghost use Rattle.pm_create.specs.Creator.{actor_of, new_table, seen_as, CreatorView, IsCreator};

    ghost Value = { CreatorView };

    ghost view = { λ c. seen_as (new_table (actor_of c.session c.actor) c.schema) c.running };

    ghost invariant = { λ c. IsCreator (new_table (actor_of c.session c.actor) c.schema) c.running };
}

impl Creator {
    /// The maker of a table with this schema, whose origin bears the name of the actor.
    pub fn new(
        alloc: Global,
        session: [u8; 16],
        actor: u32,
        schema: TableSchema,
    ) -> Result<Creator, AllocError>
        requires declared { IsDeclared schema }
        requires first { schema.id ≡ 0 }
        requires origin { schema.origin ≡ Some (origin_name (actor_of session actor)) }
        ensures is_new { IfOk result (λ c. c ≡ new_creator (actor_of session actor) schema) }
        ensures is_creator { IfOk result (λ c. IsCreator c.table c.phase) }
    {
        schema_law();
        let name = origin_name(alloc, session, actor)?;
        let path = snapshot_file(alloc, &name)?;
        let bytes = match write_schema(alloc, &schema) {
            Ok(bytes) => Blob::new(bytes),
            Err(_) => return Err(AllocError),
        };
        Ok(Creator {
            session,
            actor,
            schema,
            running: Running::new(Phase::Origin { path, bytes }),
        })
    }

    /// The table's schema.
    pub fn schema(&self) -> &TableSchema
        ensures schema { result.now ≡ self.now.table.schema }
        ensures is_creator { IsCreator self.now.table self.now.phase }
    {
        &self.schema
    }

    /// Makes the next call of the store. After a refusal, and once the table is made, no call is left.
    pub fn step<F: FileStore>(
        &mut self,
        alloc: Global,
        store: &mut F,
    ) -> Result<CreateStep, Refusal>
        requires { 0 < calls_left self.old.phase }
        ensures moves { CreatorMoved self.old.phase self.new.phase (F.seen store.old) (F.seen store.new) }
        ensures acts { CreatorActed self.old.phase self.new.phase (F.seen store.old) (F.seen store.new) result }
        ensures same { self.new.table ≡ self.old.table }
        ensures reaches { IfOk result (λ step. Reaches step self.new.phase) }
        ensures fewer { OnOk result (calls_left self.new.phase + 1 ≡ calls_left self.old.phase) }
        ensures over { OnErr result (self.new.phase ≡ phases.Over) }
        ensures later { IsLater (F.seen store.old) (F.seen store.new) }
    {
        declared_law();
        schema_law();
        make_step(alloc, &mut self.running, store)
    }
}
