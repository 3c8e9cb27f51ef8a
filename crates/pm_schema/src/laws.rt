//! What holds of the texts of all schemas.

ghost use Rattle.std.specs.Prelude.{◌≡◌, ◌↔◌, ℤ, ℕ, List, Ok, Err, FitsSigned};
ghost use Rattle.std.specs.Int.{w64};
ghost use Rattle.pm_schema.specs.Again.{IsDeclared};
ghost use Rattle.pm_schema.specs.Faults.{IsDraftFault, IsFaultOf};
ghost use Rattle.pm_schema.specs.Meaning.{SchemaOf, DraftOf};
ghost use Rattle.pm_schema.specs.Reading.{schema_of, draft_of};
ghost use Rattle.pm_schema.specs.declared.schema.TableSchema.{TableSchema};
ghost use Rattle.pm_values.specs.declared.refusal.Refusal.{Refusal};

/// A file is read as a schema exactly where its text declares the schema, and it declares one at most.
pub fn schema_law()
    ensures exact { (path text : List ℕ) (s : TableSchema)
        → (schema_of path text ≡ Ok s) ↔ SchemaOf path text s }
    ensures one { (path text : List ℕ) (s t : TableSchema)
        → SchemaOf path text s → SchemaOf path text t → s ≡ t }
{}

/// A line is read as a draft exactly where it is one of the schema.
pub fn draft_law()
    ensures { (line origin : List ℕ) (now : ℤ) (s : TableSchema)
        → (draft_of line origin now ≡ Ok s) ↔ DraftOf line origin now s }
{}

/// What a file or a draft declares has the numbers, the options and the columns with which its written text is read as
/// that very schema.
pub fn declared_law()
    ensures file { (path text : List ℕ) (s : TableSchema) → SchemaOf path text s → IsDeclared s }
    ensures draft { (line origin : List ℕ) (now : ℤ) (s : TableSchema) → FitsSigned w64 now
        → DraftOf line origin now s → IsDeclared s }
{}

/// The refusals of the text of a schema's file are faults of the file at its path.
pub fn fault_law()
    ensures { (path text : List ℕ) (refusal : Refusal) → schema_of path text ≡ Err refusal
        → IsFaultOf path refusal }
{}

/// The refusals of a line as a draft are faults of a draft.
pub fn draft_fault_law()
    ensures { (line origin : List ℕ) (now : ℤ) (refusal : Refusal) → draft_of line origin now ≡ Err refusal
        → IsDraftFault refusal }
{}
