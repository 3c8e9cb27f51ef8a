//! How far the reading of a whole view has come.

use pm_read_log::{Log, LogReader};
use pm_read_table::{View, ViewReader};

/// How far the reading has come: the next call is one of the view's reader; or the view is ready, and the next call is
/// one of the changelog's; or both are ready; or the reading ended before that.
#[derive(Drop)]
pub enum Phase {
    View { reader: ViewReader },
    Log { view: View, reader: LogReader },
    Ready { view: View, log: Log },
    Over,
}
