//! What holds of the schemas that are read.

ghost use Rattle.pm_schema.specs.Again.{IsDeclared};
ghost use Rattle.pm_schema.specs.declared.schema.TableSchema.{TableSchema};
ghost use Rattle.pm_engines.specs.TableEngine.{HasEngine};

/// Each schema that a file or a draft declares has an engine.
pub fn declared_law()
    ensures { (s : TableSchema) → IsDeclared s → HasEngine s }
{}
