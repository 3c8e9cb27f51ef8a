//! The cases of a case file, one after another.

use crate::store::CaseStore;
use pm_cases_lines::Names;
use pm_store::Planned;
use std::alloc::{AllocError, Global};
use std::mem;

/// A case: its name and its store.
struct Case {
    name: String,
    store: CaseStore,
}

impl Drop for Case {
    fn drop(self) {
        let Case { name, store } = self;
    }
}

/// The case under way, those before it with the stores that they ended with, all names, and the lines of the last case
/// that has its own.
pub struct Cases {
    last: Case,
    earlier: Vec<Case>,
    names: Names,
    lines: Vec<String>,
    is_new: bool,
}

impl Drop for Cases {
    fn drop(self) {
        let Cases {
            last,
            earlier,
            names,
            lines,
            is_new,
        } = self;
    }
}

impl Cases {
    /// A case without a name, and none before it.
    pub fn new(alloc: Global) -> Cases {
        Cases {
            last: new_case(alloc, String::new(alloc)),
            earlier: Vec::new(alloc),
            names: Names::new(alloc),
            lines: Vec::new(alloc),
            is_new: true,
        }
    }

    /// All names so far.
    pub fn names(&self) -> &Names {
        &self.names
    }

    /// Gives a name to bytes.
    pub fn add_name(&mut self, name: String, bytes: Vec<u8>) -> Result<(), AllocError> {
        self.names.add(name, bytes)
    }

    /// Keeps a line of the case under way, and those of an earlier case no longer.
    pub fn keep_line(&mut self, alloc: Global, line: &str) -> Result<(), AllocError> {
        if self.is_new {
            self.lines.clear();
            self.is_new = false;
        }
        self.lines.push(String::from_str(alloc, line)?)?;
        Ok(())
    }

    /// Takes out the lines of the last case that has its own.
    pub fn take_lines(&mut self, alloc: Global) -> Vec<String> {
        mem::replace(&mut self.lines, Vec::new(alloc))
    }

    /// Gives these lines back.
    pub fn give_lines(&mut self, lines: Vec<String>) {
        drop(mem::replace(&mut self.lines, lines));
    }

    /// The store of the case under way.
    pub fn store(&mut self) -> &mut CaseStore {
        &mut self.last.store
    }

    /// Begins a case with a store without files, and gives its heading.
    pub fn begin(&mut self, alloc: Global, name: String) -> Result<String, AllocError> {
        let ended = mem::replace(&mut self.last, new_case(alloc, name));
        self.earlier.push(ended)?;
        self.is_new = true;
        format!(in alloc; "== {}\n", self.last.name.as_str())
    }

    /// Begins again with a store without files, whose calls fail as planned.
    pub fn plan(&mut self, alloc: Global, plan: Vec<Planned>) {
        self.last.store = CaseStore::new(alloc, plan);
    }

    /// Puts the files in place that an earlier case ended with, and tells whether there is one of that name.
    pub fn copy_files(&mut self, alloc: Global, name: &str) -> Result<bool, AllocError> {
        for case in self.earlier.iter_mut() {
            if case.name.as_str() == name {
                self.last.store.copy_files(alloc, &mut case.store)?;
                return Ok(true);
            }
        }
        Ok(false)
    }
}

/// A case with a store without files.
fn new_case(alloc: Global, name: String) -> Case {
    Case {
        name,
        store: CaseStore::new(alloc, Vec::new(alloc)),
    }
}
