//! What a table's schema is: the schema as a value, and definitions of its texts, rules and folders.
//!
//! `specs/ColumnType.antt` has the texts of column types, `specs/Stated.antt` what JSON states,
//! `specs/Rules.antt` the rules, `specs/Meaning.antt` which text declares which schema, `specs/Reading.antt`
//! the first fault of a text and `specs/Faults.antt` which faults there are, `specs/Written.antt` the text of a schema,
//! `specs/Again.antt` which schemas are read again, and `specs/Folder.antt` the folder of a group, which `folder_of`
//! tells. `pm_schema_file` reads and writes schemas.
#![tactic(auto)]

mod folder;
mod laws;
mod rules;
mod schema;

pub use folder::{folder_of, partition_text};
pub use laws::{declared_law, draft_fault_law, draft_law, fault_law, schema_law};
pub use pm_options::{EngineKind, Function, Listed, Options, Producer};
pub use rules::Rule;
pub use schema::TableSchema;
