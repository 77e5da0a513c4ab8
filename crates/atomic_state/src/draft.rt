//! A value that is being changed.
ghost use Rattle.std.specs.Prelude.{◌≡◌, [], OnOk};
ghost use Rattle.tower_meaning.specs.Body.{with_part_at};
ghost use Rattle.atomic_state.specs.TreeView.{tree_of};
ghost use Rattle.atomic_state.specs.DraftView.{undone};

use crate::tree::{Tree, exchange};
use std::marker::Model;
use tower_types::NoMemory;

/// What stood at the end of a path before it was written.
#[derive(Drop)]
pub struct Change {
    path: Vec<u128>,
    old: Tree,
}

/// A value that is being changed in place, with all that it takes to make it again what it was before.
#[derive(Drop)]
pub struct Draft {
    value: Tree,
    changes: Vec<Change>,
}

impl Model for Draft {
    ghost use Rattle.std.specs.Coded.{codes};
    ghost use Rattle.tower_types.specs.Codes.{coded_value};
    ghost use Rattle.atomic_state.specs.Drafted.{Drafted};

    ghost Value = { Drafted };

    ghost coded = { Prim.hlevel (codes, coded_value) };

    ghost use Rattle.atomic_state.specs.DraftView.{drafted};

    ghost view = { λ d. drafted d.value d.changes.items };
}

impl Draft {
    /// A value that has not been changed yet.
    pub fn new(value: Tree, changes: Vec<Change>) -> Draft
        requires { changes.items ≡ [] }
        ensures value { result.value ≡ tree_of value }
        ensures before { result.before ≡ tree_of value }
    {
        Draft { value, changes }
    }

    pub fn value(&self) -> &Tree
        ensures { tree_of result.now ≡ self.now.value }
    {
        &self.value
    }

    /// Puts another value at the end of a path. Where there is no memory nothing changes.
    pub fn write(&mut self, path: Vec<u128>, new: Tree) -> Result<(), NoMemory>
        ensures value { OnOk result (self.new.value ≡ with_part_at path.items (tree_of new) self.old.value) }
        ensures before { self.new.before ≡ self.old.before }
    {
        self.changes.reserve(1)?;
        let old = exchange(&mut self.value, path.as_slice(), new);
        self.changes.push_reserved(Change { path, old });
        Ok(())
    }

    /// The value as it is now.
    pub fn finish(self) -> Tree
        ensures { tree_of result ≡ self.value }
    {
        let Draft { value, changes: _ } = self;
        value
    }

    /// The value as it was before.
    pub fn undo(self) -> Tree
        ensures { tree_of result ≡ self.before }
    {
        let Draft { value, changes } = self;
        undo_all(value, changes)
    }
}

/// Takes back the changes, the last one first.
fn undo_all(value: Tree, changes: Vec<Change>) -> Tree
    ensures { tree_of result ≡ undone (tree_of value) changes.items }
{
    let mut value = value;
    let mut changes = changes;
    while let Some(change) = changes.pop() {
        let Change { path, old } = change;
        exchange(&mut value, path.as_slice(), old);
    }
    value
}
