//! The handlers and channels of a system as the nodes of one graph: handler `k` is node `k`, and the channels come
//! after the handlers. What is found in it is looked over before it counts, so nothing of it is proved.

ghost use Rattle.std.specs.Prelude.{◌≡◌, ◌+◌, length, IfOk, OnOk};

use sqlite_items::Items;
use std::alloc::Global;
use tower_syntax::{Arch, Handler, On};
use tower_types::NoMemory;

/// For each node the nodes that it leads to, and those that lead to it.
#[derive(Drop)]
pub(crate) struct Links {
    pub(crate) ahead: Vec<Items<usize>>,
    pub(crate) back: Vec<Items<usize>>,
}

/// For each node, no other.
fn apart(alloc: Global, count: usize) -> Result<Vec<Items<usize>>, NoMemory>
    ensures { IfOk result (λ lists. length lists.items ≡ count) }
{
    let mut lists = Vec::new(alloc);
    for _node in 0..count {
        lists.push(Items::new(alloc))?;
    }
    Ok(lists)
}

/// Adds a node to the list of another, if there is such a list.
fn add(lists: &mut Vec<Items<usize>>, at: usize, node: usize) -> Result<(), NoMemory>
    ensures { OnOk result (length lists.new.items ≡ length lists.old.items) }
{
    if at < lists.len() {
        lists[at].push(node)?;
    }
    Ok(())
}

impl Links {
    fn join(&mut self, from: usize, to: usize) -> Result<(), NoMemory>
        ensures { OnOk result (length self.new.back.items ≡ length self.old.back.items) }
    {
        add(&mut self.ahead, from, to)?;
        add(&mut self.back, to, from)?;
        Ok(())
    }

    /// Joins handler `k` to the channels of its emitters, and its own channel to it. `first` is the node of channel 0.
    fn join_handler(&mut self, first: usize, k: usize, handler: &Handler) -> Result<(), NoMemory>
        ensures { OnOk result (length self.new.back.items ≡ length self.old.back.items) }
    {
        if let On::Channel(c) = handler.on {
            self.join(first.saturating_add(c as usize), k)?;
        }
        for emitter in handler.emitters.as_slice() {
            self.join(k, first.saturating_add(emitter.channel as usize))?;
        }
        Ok(())
    }

    pub(crate) fn new(alloc: Global, arch: &Arch) -> Result<Links, NoMemory>
        ensures { IfOk result (λ links. length links.back.items ≡ length arch.now.handlers + length arch.now.channels) }
    {
        let first = arch.handlers().len();
        let count = first + arch.channels().len();
        let mut links = Links {
            ahead: apart(alloc, count)?,
            back: apart(alloc, count)?,
        };
        for (k, handler) in arch.handlers().iter().enumerate() {
            links.join_handler(first, k, handler)?;
        }
        Ok(links)
    }
}
