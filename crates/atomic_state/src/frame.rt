//! What a callback works on.
ghost use Rattle.std.specs.Prelude.{◌≡◌, OnOk};
ghost use Rattle.std.specs.Option.{option_copied};
ghost use Rattle.tower_syntax.specs.declared.body.Root.TheVariants as root;
ghost use Rattle.tower_meaning.specs.Body.{root_value, with_root, with_part_at, in_env};
ghost use Rattle.atomic_state.specs.TreeView.{tree_of, seen};
ghost use Rattle.atomic_state.specs.FrameView.{env_of, execution_of};

use crate::draft::Draft;
use crate::tree::{Tree, exchange};
use sqlite_items::Items;
use tower_syntax::Root;
use tower_types::{NoMemory, Value};

/// The values of a callback's names, with the messages that each emitter has got.
#[derive(Drop)]
pub struct Frame {
    pub message: Tree,
    pub binders: Vec<Tree>,
    pub states: Draft,
    pub lists: Vec<Items<Value>>,
}

impl Frame {
    /// The value of a name, if there is that name.
    pub fn root(&self, root: Root) -> Option<&Tree>
        ensures { seen (option_copied result) ≡ root_value (env_of self.now) root }
    {
        match root {
            Root::Param => Some(&self.message),
            Root::Binder(b) => self.binders.get(b as usize),
            Root::State(k) => self.states.value().part(u128::from(k)),
        }
    }

    /// Gives a name that the callback binds another value.
    pub fn bind(&mut self, b: u32, value: Tree)
        ensures execution { execution_of self.new ≡ in_env (with_root (root.Binder b) (tree_of value) (env_of self.old)) (execution_of self.old) }
        ensures before { self.new.states.before ≡ self.old.states.before }
    {
        let b = b as usize;
        if b < self.binders.len() {
            self.binders[b] = value;
        }
    }

    /// Puts another value at the end of a path from a name.
    pub fn write(&mut self, root: Root, path: Vec<u128>, new: Tree) -> Result<(), NoMemory>
        ensures execution { OnOk result (execution_of self.new
            ≡ in_env (with_root root (with_part_at path.items (tree_of new) (root_value (env_of self.old) root)) (env_of self.old)) (execution_of self.old)) }
        ensures before { self.new.states.before ≡ self.old.states.before }
    {
        match root {
            Root::Param => {
                exchange(&mut self.message, path.as_slice(), new);
                Ok(())
            }
            Root::Binder(b) => {
                self.write_binder(b as usize, path.as_slice(), new);
                Ok(())
            }
            Root::State(k) => self.write_state(k, path, new),
        }
    }

    fn write_binder(&mut self, b: usize, path: &[u128], new: Tree)
        ensures execution { execution_of self.new
            ≡ in_env (with_root (root.Binder b) (with_part_at path.now (tree_of new) (root_value (env_of self.old) (root.Binder b))) (env_of self.old)) (execution_of self.old) }
        ensures before { self.new.states.before ≡ self.old.states.before }
    {
        if b < self.binders.len() {
            exchange(&mut self.binders[b], path, new);
        }
    }

    fn write_state(&mut self, k: u32, path: Vec<u128>, new: Tree) -> Result<(), NoMemory>
        ensures execution { OnOk result (execution_of self.new
            ≡ in_env (with_root (root.State k) (with_part_at path.items (tree_of new) (root_value (env_of self.old) (root.State k))) (env_of self.old)) (execution_of self.old)) }
        ensures before { self.new.states.before ≡ self.old.states.before }
    {
        let mut path = path;
        path.insert(0, u128::from(k))?;
        self.states.write(path, new)?;
        Ok(())
    }
}
