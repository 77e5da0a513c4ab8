//! Values whose parts are read and written in place.
ghost use Rattle.std.specs.Prelude.{◌≡◌, IfOk, map};
ghost use Rattle.std.specs.Option.{option_copied};
ghost use Rattle.tower_types.specs.Value.{num, part, with_part};
ghost use Rattle.tower_types.specs.View.{value_of};
ghost use Rattle.tower_meaning.specs.Body.{part_at, with_part_at};
ghost use Rattle.atomic_state.specs.TreeView.{tree_of, trees_of, parts_of, seen};

use sqlite_items::Items;
use std::alloc::Global;
use std::mem::replace;
use tower_types::{NoMemory, Value};

/// A value, of which a part can be written where it stands: a number at a scalar, and a list of values at an array or
/// a record.
#[derive(Debug, Drop)]
pub enum Tree {
    Word(i128),
    Parts(Vec<Tree>),
}

impl Tree {
    /// The number at a scalar, and 0 at an array or a record.
    pub fn number(&self) -> i128
        ensures { result ≡ num (tree_of self.now) }
    {
        match self {
            Tree::Word(n) => *n,
            Tree::Parts(_) => 0,
        }
    }

    /// Part `k`, if there is one.
    pub fn part(&self, k: u128) -> Option<&Tree>
        ensures { seen (option_copied result) ≡ part k (tree_of self.now) }
    {
        match self {
            Tree::Word(_) => None,
            Tree::Parts(parts) => part_of(parts.as_slice(), k),
        }
    }

    /// Another tree equal to this one.
    #[cycle(copy)]
    pub fn copy(&self, alloc: Global) -> Result<Tree, NoMemory>
        ensures { IfOk result (λ t. tree_of t ≡ tree_of self.now) }
    {
        match self {
            Tree::Word(n) => Ok(Tree::Word(*n)),
            Tree::Parts(parts) => Ok(Tree::Parts(copy_all(alloc, parts.as_slice())?)),
        }
    }

    /// The value that it stands for.
    #[cycle(lower)]
    pub fn value(&self, alloc: Global) -> Result<Value, NoMemory>
        ensures { IfOk result (λ v. value_of v ≡ tree_of self.now) }
    {
        match self {
            Tree::Word(n) => Ok(Value::Word(*n)),
            Tree::Parts(parts) => Ok(Value::Parts(values(alloc, parts.as_slice())?)),
        }
    }

    /// The tree of a value.
    #[cycle(lift)]
    pub fn of(v: &Value, alloc: Global) -> Result<Tree, NoMemory>
        ensures { IfOk result (λ t. tree_of t ≡ value_of v.now) }
    {
        match v {
            Value::Word(n) => Ok(Tree::Word(*n)),
            Value::Parts(parts) => Ok(Tree::Parts(trees(alloc, parts.as_slice())?)),
        }
    }
}

fn part_of(parts: &[Tree], k: u128) -> Option<&Tree>
    ensures { seen (option_copied result) ≡ part k (trees_of parts.now) }
{
    if k < parts.len() as u128 {
        Some(&parts[k as usize])
    } else {
        None
    }
}

#[cycle(copy)]
pub(crate) fn copy_all(alloc: Global, parts: &[Tree]) -> Result<Vec<Tree>, NoMemory>
    ensures { IfOk result (λ ts. map tree_of ts.items ≡ map tree_of parts.now) }
{
    let mut copies = Vec::new(alloc);
    for part in parts {
        let copy = part.copy(alloc)?;
        copies.push(copy)?;
    }
    Ok(copies)
}

#[cycle(lower)]
fn values(alloc: Global, parts: &[Tree]) -> Result<Items<Value>, NoMemory>
    ensures { IfOk result (λ vs. parts_of vs ≡ trees_of parts.now) }
{
    let mut values = Items::new(alloc);
    for part in parts {
        let value = part.value(alloc)?;
        values.push(value)?;
    }
    Ok(values)
}

#[cycle(lift)]
fn trees(alloc: Global, parts: &[Value]) -> Result<Vec<Tree>, NoMemory>
    ensures { IfOk result (λ ts. trees_of ts.items ≡ parts_of parts.now) }
{
    let mut trees = Vec::new(alloc);
    for part in parts {
        let tree = Tree::of(part, alloc)?;
        trees.push(tree)?;
    }
    Ok(trees)
}

/// Puts another value at the end of a path, and gives back what was there. Where the path leads nowhere nothing
/// changes, and a number 0 comes back.
#[cycle(exchange)]
pub fn exchange(tree: &mut Tree, path: &[u128], new: Tree) -> Tree
    ensures after { tree_of tree.new ≡ with_part_at path.now (tree_of new) (tree_of tree.old) }
    ensures before { tree_of result ≡ part_at path.now (tree_of tree.old) }
{
    if path.is_empty() {
        return replace(tree, new);
    }
    match replace(tree, Tree::Word(0)) {
        Tree::Word(n) => {
            *tree = Tree::Word(n);
            Tree::Word(0)
        }
        Tree::Parts(mut parts) => {
            let old = exchange_part(&mut parts, path[0], &path[1..], new);
            *tree = Tree::Parts(parts);
            old
        }
    }
}

/// The same in part `k` of a list.
#[cycle(exchange)]
fn exchange_part(parts: &mut Vec<Tree>, k: u128, path: &[u128], new: Tree) -> Tree
    ensures after { trees_of parts.new.items ≡ with_part k (with_part_at path.now (tree_of new)) (trees_of parts.old.items) }
    ensures before { tree_of result ≡ part_at path.now (part k (trees_of parts.old.items)) }
{
    if k < parts.len() as u128 {
        exchange(&mut parts[k as usize], path, new)
    } else {
        Tree::Word(0)
    }
}
