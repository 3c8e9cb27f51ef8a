//! The paths that views named one after another, but for those that the last one names.

ghost use Rattle.std.specs.Cmp.Lexicographic.{slice_cmp};
ghost use Rattle.std.specs.List.Sorted.{IsStrictlySortedBy};
ghost use Rattle.std.specs.Ordering.{nat_cmp};
ghost use Rattle.std.specs.Prelude.{◌↔◌, ℕ, List, Contains, IfOk, IsTrue, OnOk};
ghost use Rattle.pm_expire_paths.specs.Dropping.{Adds, AreDropped, HasOrLacks};

use pm_base::Txt;
use std::alloc::{AllocError, Global};
use std::marker::Model;

/// The paths of the last view, rising and each once, and those of views before it that the next one didn't name.
#[derive(Drop)]
pub struct Dropping {
    kept: Vec<Txt>,
    gone: Vec<Txt>,
}

impl Model for Dropping {
    ghost use Rattle.std.specs.Cmp.Lexicographic.{slice_cmp};
    ghost use Rattle.std.specs.List.Sorted.{IsStrictlySortedBy};
    ghost use Rattle.std.specs.Ordering.{nat_cmp};
    ghost use Rattle.pm_expire_paths.specs.Dropping.{dropping_of, DroppingView};

    ghost Value = { DroppingView };

    ghost view = { λ d. dropping_of d.kept.items d.gone.items };

    ghost invariant = { λ d. IsStrictlySortedBy (slice_cmp nat_cmp) d.kept.items };
}

impl Dropping {
    /// No view was added.
    pub fn new(alloc: Global) -> Dropping
        ensures kept { (path : List ℕ) → Contains result.kept path → ⊥ }
        ensures gone { (path : List ℕ) → Contains result.gone path → ⊥ }
    {
        Dropping {
            kept: Vec::new(alloc),
            gone: Vec::new(alloc),
        }
    }

    /// With the paths of one view more, some of them perhaps twice.
    pub fn add(self, paths: Vec<Txt>) -> Result<Dropping, AllocError>
        ensures { IfOk result (λ d. Adds self paths.items d) }
    {
        let Dropping { kept, gone } = self;
        let mut paths = paths;
        put_in_order(&mut paths)?;
        let gone = with_lacking(gone, kept, paths.as_slice())?;
        Ok(Dropping { kept: paths, gone })
    }

    /// The paths that some view named and the last one doesn't, rising by bytes.
    pub fn into_dropped(self, alloc: Global) -> Result<Vec<Txt>, AllocError>
        ensures { IfOk result (λ paths. AreDropped self paths.items) }
    {
        let Dropping { kept, gone } = self;
        let mut dropped = with_lacking(Vec::new(alloc), gone, kept.as_slice())?;
        put_in_order(&mut dropped)?;
        Ok(dropped)
    }
}

/// Puts paths in order, each once.
fn put_in_order(paths: &mut Vec<Txt>) -> Result<(), AllocError>
    ensures order { OnOk result (IsStrictlySortedBy (slice_cmp nat_cmp) paths.new.items) }
    ensures same { OnOk result ((path : List ℕ) → Contains paths.new.items path ↔ Contains paths.old.items path) }
{
    paths.sort()?;
    paths.dedup();
    Ok(())
}

/// Paths, with those of others that some in order don't have.
fn with_lacking(paths: Vec<Txt>, others: Vec<Txt>, sorted: &[Txt]) -> Result<Vec<Txt>, AllocError>
    requires { IsStrictlySortedBy (slice_cmp nat_cmp) sorted.now }
    ensures { IfOk result (λ all. (path : List ℕ) → Contains all.items path
        ↔ HasOrLacks paths.items others.items sorted.now path) }
{
    let mut all = paths;
    let mut left = others;
    while let Some(path) = left.pop() {
        if !has(sorted, &path) {
            all.push(path)?;
        }
    }
    Ok(all)
}

/// Whether paths in order have one.
fn has(sorted: &[Txt], path: &Txt) -> bool
    requires { IsStrictlySortedBy (slice_cmp nat_cmp) sorted.now }
    ensures { IsTrue result ↔ Contains sorted.now path.now }
{
    match sorted.binary_search(path) {
        Ok(_) => true,
        Err(_) => false,
    }
}
