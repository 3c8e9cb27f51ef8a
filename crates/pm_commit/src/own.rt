//! What a commit is made of, and by whom.

ghost use Rattle.std.specs.Prelude.{◌≡◌};
ghost use Rattle.pm_commit.specs.Own.{begun, new_author, new_own, own_for_plan};

use crate::lost::Lost;
use pm_base::Txt;
use pm_made::{Author, Intent, Plan};
use pm_values::Names;
use pm_write::Batch;
use std::marker::Model;

/// What a commit is for and by whom, whether an earlier commit of the user is looked for, the maker of names, and the
/// ids that tries lost to others.
#[derive(Drop)]
pub struct Own {
    pub(crate) intent: Intent,
    pub(crate) author: Author,
    pub(crate) check: bool,
    pub(crate) names: Names,
    pub(crate) lost: Lost,
}

impl Model for Own {
    ghost use Rattle.pm_commit.specs.Own.{own_of, OwnView};

    ghost Value = { OwnView };

    ghost view = { λ o. own_of o.intent o.author o.check o.names o.lost };
}

impl Own {
    /// A commit that appends a batch, before its first try, at that moment.
    pub(crate) fn new(
        batch: Batch,
        user: Txt,
        identifier: i64,
        check: bool,
        names: Names,
        now_millis: i64,
    ) -> Own
        ensures { result ≡ new_own batch (new_author user identifier now_millis) check names }
    {
        let mut names = names;
        names.set_base(0);
        Own {
            intent: Intent::Append { batch },
            author: Author {
                user,
                identifier,
                base: 0,
                time: now_millis,
            },
            check,
            names,
            lost: Lost::new(),
        }
    }

    /// A commit that compacts by a plan, once its first try's view was read, which is its base.
    pub(crate) fn of_plan(plan: Plan, author: Author, names: Names) -> Own
        ensures { result ≡ own_for_plan plan author names }
    {
        Own {
            intent: Intent::Compact { plan },
            author,
            check: false,
            names,
            lost: Lost::new(),
        }
    }

    /// With the newest snapshot of the first try as its base.
    pub(crate) fn begin(&mut self, newest: u64)
        ensures { self.new ≡ begun newest self.old }
    {
        if self.lost.is_empty() {
            self.author.base = newest;
            self.names.set_base(newest);
        }
    }

    /// The author, where the commit is done.
    pub(crate) fn into_author(self) -> Author
        ensures { result ≡ self.author }
    {
        let Own {
            intent,
            author,
            names,
            lost,
            ..
        } = self;
        drop(intent);
        drop(names);
        drop(lost);
        author
    }
}
