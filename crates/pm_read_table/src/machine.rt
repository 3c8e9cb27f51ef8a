//! The phases of a reader of a view, and what they mean.

ghost use Rattle.pm_model_folder.specs.Ledger as ledgers;
ghost use Rattle.pm_read_schema.specs.Beside.{IsTold};
ghost use Rattle.pm_read_table.specs.Asked as asks;
ghost use Rattle.pm_read_table.specs.Meaning.{Knows};
ghost use Rattle.pm_read_table.specs.Reader.{calls_left, next_call, Goes, IsReady, IsViewer, Shown};
ghost use Rattle.pm_read_table.specs.Trace.{Did, Shows};
ghost use Rattle.pm_read_table.specs.declared.phase.Phase.TheVariants as phases;

use crate::after::{
    after_again, after_base, after_delta, after_list, after_manifest, after_origin, after_snapshot,
};
use crate::phase::Phase;
use pm_base::Txt;
use pm_machine::ReaderPhase;
use pm_paths::{manifest_path, origin_path, snapshot_path};
use pm_store::{Answer, LentCall};
use pm_values::Refusal;
use std::alloc::{AllocError, Global};

impl pm_machine::Phase for Phase {
    ghost call_of = { next_call };

    ghost goes = { Goes };

    ghost shown = { Shown };

    ghost holds = { IsViewer };

    ghost end = { phases.Over };

    fn call(&self, alloc: Global) -> Result<Option<LentCall<'_>>, AllocError> {
        match self {
            Phase::List { .. } => Ok(Some(LentCall::List {
                folder: Txt::from_str(alloc, "snapshot")?,
            })),
            Phase::Origin { sought } => Ok(Some(LentCall::Read {
                path: origin_path(alloc, sought.schema())?,
            })),
            Phase::Snapshot { id, .. } | Phase::Again { id, .. } => Ok(Some(LentCall::Read {
                path: snapshot_path(alloc, *id)?,
            })),
            Phase::Base { snapshot, .. } => Ok(Some(LentCall::Read {
                path: manifest_path(alloc, &snapshot.base_list)?,
            })),
            Phase::Delta { snapshot, .. } => Ok(Some(LentCall::Read {
                path: manifest_path(alloc, &snapshot.delta_list)?,
            })),
            Phase::Manifests { reading } => Ok(Some(LentCall::Read {
                path: manifest_path(alloc, &reading.next.name)?,
            })),
            Phase::Ready { .. } | Phase::Over => Ok(None),
        }
    }

    fn over() -> Phase {
        Phase::Over
    }

    fn next(self, alloc: Global, answer: Answer) -> Result<Phase, Refusal> {
        match (self, answer) {
            (Phase::List { asked }, Answer::Listed(names)) => after_list(alloc, asked, names),
            (Phase::Origin { sought }, Answer::Found(found)) => after_origin(alloc, sought, found),
            (Phase::Snapshot { sought, id }, Answer::Found(found)) => {
                after_snapshot(alloc, sought, id, found)
            }
            (Phase::Base { sought, snapshot }, Answer::Found(found)) => {
                after_base(alloc, sought, snapshot, found)
            }
            (
                Phase::Delta {
                    sought,
                    snapshot,
                    base,
                },
                Answer::Found(found),
            ) => after_delta(alloc, sought, snapshot, base, found),
            (Phase::Manifests { reading }, Answer::Found(found)) => {
                after_manifest(alloc, reading, found)
            }
            (Phase::Again { asked, id, path }, Answer::Found(found)) => {
                drop(asked);
                Err(after_again(id, path, found))
            }
            _ => unreachable!(),
        }
    }
}

impl ReaderPhase for Phase {
    ghost History = { ledgers.Past };

    ghost Folder = { ledgers.Stands };

    ghost knows = { Knows };

    ghost tells = { IsTold };

    ghost Asked = { asks.Asked };

    ghost did = { Did };

    ghost shows = { Shows };

    ghost calls_left = { calls_left };

    ghost ready = { IsReady };
}
