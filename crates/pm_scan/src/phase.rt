//! How far a scan has come.

use crate::rows::Rows;
use pm_group_files::GroupReader;
use pm_read_table::ViewReader;

/// How far a scan of these rows has come: the view is being read; or its data files are, of the snapshot with that id;
/// or the text of that snapshot is ready; or the scan ended before that.
#[derive(Drop)]
pub enum Phase {
    View {
        rows: Rows,
        reader: ViewReader,
    },
    Files {
        rows: Rows,
        id: u64,
        files: GroupReader,
    },
    Ready {
        rows: Rows,
        id: u64,
        text: Vec<u8>,
    },
    Over,
}
