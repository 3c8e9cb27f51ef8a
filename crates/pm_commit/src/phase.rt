//! How far a commit has come.

use crate::own::Own;
use crate::search::Searching;
use pm_made::Author;
use pm_put::Putter;
use pm_read_table::ViewReader;
use pm_schema::TableSchema;

/// How far a commit has come: the next call lists the manifests; or is one of the newest view; or reads an older
/// snapshot in search of the user's last commit; or is one of the putter of a try's files and of its snapshot, which
/// has that id. Or the snapshot with that id was committed by its author; or the author had committed this before; or
/// the commit ended before that.
#[derive(Drop)]
pub enum Phase {
    Names {
        own: Own,
        schema: TableSchema,
    },
    View {
        own: Own,
        reader: ViewReader,
    },
    Search {
        own: Own,
        searching: Searching,
    },
    Put {
        own: Own,
        schema: TableSchema,
        id: u64,
        putter: Putter,
    },
    Committed {
        author: Author,
        id: u64,
    },
    Already {
        author: Author,
    },
    Over,
}
