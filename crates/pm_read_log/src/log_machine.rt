//! The phases of a reader of a changelog, and what they mean.

ghost use Rattle.pm_model_folder.specs.Ledger as ledgers;
ghost use Rattle.pm_read_schema.specs.Beside.{IsTold};
ghost use Rattle.pm_read_log.specs.Log as logs;
ghost use Rattle.pm_read_log.specs.LogMeaning.{Knows};
ghost use Rattle.pm_read_log.specs.LogReader.{calls_left, next_call, Goes, IsLogReader, IsReady, Shown};
ghost use Rattle.pm_read_log.specs.LogTrace.{Did, Shows};
ghost use Rattle.pm_read_log.specs.declared.log_phase.LogPhase.TheVariants as phases;

use crate::log_after::{after_again, after_list, after_manifest, after_snapshot};
use crate::log_phase::LogPhase;
use pm_machine::{Phase, ReaderPhase};
use pm_paths::{manifest_path, snapshot_path};
use pm_store::{Answer, LentCall};
use pm_values::Refusal;
use std::alloc::{AllocError, Global};

impl Phase for LogPhase {
    ghost call_of = { next_call };

    ghost goes = { Goes };

    ghost shown = { Shown };

    ghost holds = { IsLogReader };

    ghost end = { phases.Over };

    fn call(&self, alloc: Global) -> Result<Option<LentCall<'_>>, AllocError> {
        match self {
            LogPhase::Snapshot { asked } | LogPhase::Again { asked, .. } => {
                let path = snapshot_path(alloc, asked.id())?;
                Ok(Some(LentCall::Read { path }))
            }
            LogPhase::List { list, .. } => Ok(Some(LentCall::Read {
                path: manifest_path(alloc, list)?,
            })),
            LogPhase::Manifests { reading } => Ok(Some(LentCall::Read {
                path: manifest_path(alloc, &reading.next.name)?,
            })),
            LogPhase::Ready { .. } | LogPhase::Over => Ok(None),
        }
    }

    fn over() -> LogPhase {
        LogPhase::Over
    }

    fn next(self, alloc: Global, answer: Answer) -> Result<LogPhase, Refusal> {
        match (self, answer) {
            (LogPhase::Snapshot { asked }, Answer::Found(found)) => {
                after_snapshot(alloc, asked, found)
            }
            (
                LogPhase::List {
                    asked,
                    snapshot,
                    list,
                },
                Answer::Found(found),
            ) => after_list(alloc, asked, snapshot, list, found),
            (LogPhase::Manifests { reading }, Answer::Found(found)) => {
                after_manifest(alloc, reading, found)
            }
            (LogPhase::Again { asked, path }, Answer::Found(found)) => {
                Err(after_again(asked, path, found))
            }
            _ => unreachable!(),
        }
    }
}

impl ReaderPhase for LogPhase {
    ghost History = { ledgers.Past };

    ghost Folder = { ledgers.Stands };

    ghost knows = { Knows };

    ghost tells = { IsTold };

    ghost Asked = { logs.LogAskedView };

    ghost did = { Did };

    ghost shows = { Shows };

    ghost calls_left = { calls_left };

    ghost ready = { IsReady };
}
