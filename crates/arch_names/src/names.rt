//! The names that are declared in one set.
ghost use Rattle.std.specs.Prelude.{◌≡◌, ◌++◌, ◌∷◌, [], None, OnOk, length, take, ◌<◌, ◌-◌, ◌^◌};
ghost use Rattle.arch_names.specs.Names.{find};

use crate::fault::Sort;
use sqlite_items::Items;
use std::alloc::Global;
use std::collections::BTreeMap;
use std::marker::Model;
use tower_syntax::Target;
use tower_types::{Name, NoMemory};

/// A declaration of a name: the offset of the name, and what it is declared as.
#[derive(Clone, Copy, Debug, PartialEq, Eq)]
pub struct Declared<T> {
    pub at: u32,
    pub what: T,
}

/// The names of a set with their first declarations, in the order of these, and a tree that finds each by its name. It
/// is no hash table, since the names of a file can be chosen to collide in one.
#[derive(Drop)]
pub struct Names<T> {
    order: Items<(Name, Declared<T>)>,
    tree: BTreeMap<Vec<u8>, Declared<T>>,
}

impl<T> Model for Names<T> {
    ghost use Rattle.arch_names.specs.Names.{Names as Entries};
    ghost use Rattle.arch_names.specs.Trees.{Finds};

    ghost Value = { Entries T };

    ghost view = { λ n. n.order };

    ghost invariant = { λ n. Finds (λ k. k.items) n.tree.entries n.order };
}

impl<T: Copy> Names<T> {
    /// No names.
    pub fn new(alloc: Global) -> Names<T>
        ensures { result ≡ [] }
    {
        Names {
            order: Items::new(alloc),
            tree: BTreeMap::new(alloc),
        }
    }

    /// How many names there are.
    pub fn len(&self) -> usize
        ensures { result ≡ length self.now }
    {
        self.order.len()
    }

    /// The first declaration of a name.
    pub fn get(&self, name: &Name) -> Option<Declared<T>>
        ensures { result ≡ find self.now name.now }
    {
        self.tree.get(name.bytes()).copied()
    }

    /// Declares a name. A declaration that it has already stays.
    pub fn declare(
        &mut self,
        alloc: Global,
        name: &Name,
        declared: Declared<T>,
    ) -> Result<(), NoMemory>
        ensures ok { OnOk result (find self.new ≡ find (self.old ++ (name.now, declared) ∷ [])) }
        ensures fresh { OnOk result (find self.old name.now ≡ None → self.new ≡ self.old ++ (name.now, declared) ∷ []) }
    {
        if self.tree.contains_key(name.bytes()) {
            return Ok(());
        }
        let key = Vec::from_slice(alloc, name.bytes())?;
        let copy = name.copy(alloc)?;
        self.order.push((copy, declared))?;
        match self.tree.insert(key, declared) {
            Ok(_) => Ok(()),
            Err(_) => {
                let _ = self.order.pop();
                Err(NoMemory)
            }
        }
    }

    /// Forgets all names but the first `len`.
    pub fn truncate(&mut self, len: usize)
        ensures { self.new ≡ take len self.old }
    {
        while self.len() > len {
            self.forget_last();
        }
    }

    /// Forgets the last name.
    fn forget_last(&mut self)
        requires { 0 < length self.old }
        ensures { self.new ≡ take (length self.old - 1) self.old }
    {
        if let Some((name, _)) = self.order.pop() {
            let _ = self.tree.remove(name.bytes());
        }
    }
}

/// What a name of the file's one set is declared as. Records, sources and channels are numbered, each kind by
/// itself, in text order.
#[derive(Clone, Copy, Debug, PartialEq, Eq)]
pub enum Thing {
    Record(u32),
    Source(u32),
    Channel(u32),
    Output,
    Monitor,
    Handler,
}

impl Thing {
    ghost use Rattle.arch_names.specs.Names.{sort_of, serves};

    /// The sort of the thing.
    pub fn sort(self) -> Sort
        ensures { result ≡ sort_of self }
    {
        match self {
            Thing::Record(_) => Sort::Record,
            Thing::Source(_) => Sort::Source,
            Thing::Channel(_) => Sort::Channel,
            Thing::Output => Sort::Output,
            Thing::Monitor => Sort::Monitor,
            Thing::Handler => Sort::Handler,
        }
    }

    /// What a use that wants this sort then refers to.
    pub fn serves(self, want: Sort) -> Option<Target>
        ensures { result ≡ serves want self }
    {
        match self {
            Thing::Record(number) => match want {
                Sort::Record => Some(Target::Record(number)),
                _ => None,
            },
            Thing::Source(number) => match want {
                Sort::Source | Sort::SourceOrChannel => Some(Target::Source(number)),
                _ => None,
            },
            Thing::Channel(number) => match want {
                Sort::Channel | Sort::SourceOrChannel => Some(Target::Channel(number)),
                _ => None,
            },
            _ => None,
        }
    }
}

/// How many records, sources and channels there are so far.
#[derive(Clone, Copy, Debug, PartialEq, Eq)]
pub struct Counts {
    pub records: u32,
    pub sources: u32,
    pub channels: u32,
}

/// The names that a callback has bound and that are in scope, and how many it has bound so far.
#[derive(Drop)]
pub struct Scope {
    pub names: Names<Target>,
    pub binders: u32,
}
