//! The command `create` as a machine: it makes a table where there is none.
//!
//! A `Creator` makes two calls of a store. It creates the table's origin, an empty file that bears the actor's name,
//! and then swaps the file of schema 0 from absent to the schema. Whatever others do between, and whatever of a call is
//! carried out, each call changes nothing, or makes a file of the actor's own, or makes this table where there was none
//! and the origin stands; so does each crash image of a call. Once it answers `Created`, the files stand for a table of
//! this schema, and each refusal comes exactly where its calls show it.
//!
//! `create_table` makes all its calls, one after another: the two that make the table, or those that show the refusal,
//! each at its place among all operations, whatever others do (`trace`). Take a history that the files stand for at the
//! first of them, and nobody else acting from then on (`history`). Once the table is made there was none, and the files
//! and each later crash image stand for this table. A refusal leaves the history, but after a fault of the store in the
//! swap of the schema this table may stand where there was none; so may it in crash images, and nothing else. A refusal
//! has its cause: a table, a file of the origin's name, or a fault. Where there is none of these the table is made, or
//! memory ran out.
//!
//! `specs/Creator.antt` has its phases, its calls and what each answer leads to; `specs/Meaning.antt` what it knows of
//! the files in each phase and what a step means for them, with the table, which the phases don't hold, beside their
//! past; `specs/Trace.antt` which calls it made, and which show a refusal; `specs/Making.antt` what all its calls
//! are, and what they do to a history.
#![tactic(auto)]

mod creator;
mod laws;
mod machine;
mod making;
mod names;
mod phase;

pub use creator::{CreateStep, Creator};
pub use laws::{begins_law, causes_law, images_law, known_law, one_answer_law};
pub use making::create_table;
pub use names::origin_name;
pub use phase::Phase;
