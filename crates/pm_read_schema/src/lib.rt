//! The table's schema, read by a machine: what every command but `create` begins with.
//!
//! A `SchemaReader` lists the folder `schema` and reads the schema with the greatest id. Where that names no origin, it
//! lists the folder `snapshot`, in which a snapshot must stand. It changes nothing. Once it is ready, there is a table
//! of the schema that it hands out, whatever others do between its calls. Where the files stand for a history, it is
//! refused only for memory, for a fault of the store, or where there is no table. `read_table_schema` makes all its
//! calls.
//!
//! `specs/Reader.antt` has its phases, its calls and what each answer leads to, `specs/Names.antt` what a listing says;
//! `specs/Meaning.antt` what it knows of the files in each phase, and which refusals come;
//! `specs/Trace.antt` which calls it made, and which show a refusal; `specs/AllCalls.antt` what all of them do where
//! nobody else acts.
#![tactic(auto)]

mod all_calls;
mod laws;
mod machine;
mod names;
mod phase;
mod reader;

pub use all_calls::read_table_schema;
pub use laws::{causes_law, images_law, known_law, nothing_law, schema_name_law};
pub use names::schema_id_of_name;
pub use phase::Phase;
pub use reader::{SchemaReader, into_schema, is_schema_ready, schema_reader};
