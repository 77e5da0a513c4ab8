//! Levels of the nodes of a graph: nodes that lead to each other have one level, and a node that leads to others has
//! no higher one. Two searches find them, each in time that is linear in the links. And how many links lead from each
//! node to one of them.

ghost use Rattle.std.specs.Prelude.{◌≡◌, length, IfOk, OnOk};

use sqlite_items::Items;
use std::alloc::Global;
use tower_types::NoMemory;

/// A search that goes as deep as it can: the nodes that it has seen, the way to where it is with how many links of
/// each node it has gone, and the nodes that it has left.
#[derive(Drop)]
struct Search {
    seen: Items<bool>,
    way: Items<(usize, usize)>,
    left: Items<usize>,
}

/// The nodes and links of a graph, counted together.
fn size(ahead: &[Items<usize>]) -> usize {
    let mut total = ahead.len();
    for links in ahead {
        total = total.saturating_add(links.len());
    }
    total
}

/// The node to which link `at` of a node leads.
fn next(ahead: &[Items<usize>], node: usize, at: usize) -> Option<usize> {
    if node < ahead.len() {
        ahead[node].get(at).copied()
    } else {
        None
    }
}

impl Search {
    /// Goes to a node, if it is new.
    fn enter(&mut self, node: usize) -> Result<(), NoMemory> {
        if node < self.seen.len() && !self.seen.as_slice()[node] {
            self.seen.set(node, true);
            self.way.push((node, 0))?;
        }
        Ok(())
    }

    /// Goes along the next link of the node where it is, or leaves the node. Says whether it was anywhere.
    fn step(&mut self, ahead: &[Items<usize>]) -> Result<bool, NoMemory> {
        let Some((node, at)) = self.way.pop() else {
            return Ok(false);
        };
        match next(ahead, node, at) {
            Some(other) => {
                self.way.push((node, at.saturating_add(1)))?;
                self.enter(other)?;
            }
            None => self.left.push(node)?,
        }
        Ok(true)
    }

    /// Goes on until it has left all that it has seen, in at most so many steps. As many as there are nodes and links
    /// are enough.
    fn run(&mut self, ahead: &[Items<usize>], steps: usize) -> Result<(), NoMemory> {
        for _step in 0..steps {
            if !self.step(ahead)? {
                return Ok(());
            }
        }
        Ok(())
    }
}

/// The nodes, each behind those to which it leads and which do not lead back to it.
pub(crate) fn behind_next(alloc: Global, ahead: &[Items<usize>]) -> Result<Items<usize>, NoMemory> {
    let steps = size(ahead);
    let mut search = Search {
        seen: Items::from_vec(vec![in alloc; false; ahead.len()]?),
        way: Items::new(alloc),
        left: Items::new(alloc),
    };
    for node in 0..ahead.len() {
        search.enter(node)?;
        search.run(ahead, steps)?;
    }
    let Search {
        seen: _,
        way: _,
        left,
    } = search;
    Ok(left)
}

/// A search that goes back along links: the level of each node that it has come to, from 1 on, and those nodes in
/// the order in which it came to them.
#[derive(Drop)]
struct Flood {
    levels: Items<u64>,
    order: Items<usize>,
}

impl Flood {
    /// Gives a node its level, if it has none.
    fn enter(&mut self, node: usize, level: u64) -> Result<(), NoMemory>
        ensures { OnOk result (length self.new.levels ≡ length self.old.levels) }
    {
        if node < self.levels.len() && self.levels.as_slice()[node] == 0 {
            self.order.push(node)?;
            self.levels.set(node, level);
        }
        Ok(())
    }

    fn enter_all(&mut self, nodes: &[usize], level: u64) -> Result<(), NoMemory>
        ensures { OnOk result (length self.new.levels ≡ length self.old.levels) }
    {
        for node in nodes {
            self.enter(*node, level)?;
        }
        Ok(())
    }

    /// Gives the level to all nodes without one that lead to the node, or to one that does.
    fn rise(&mut self, back: &[Items<usize>], node: usize, level: u64) -> Result<(), NoMemory>
        ensures { OnOk result (length self.new.levels ≡ length self.old.levels) }
    {
        let first = self.order.len();
        self.enter(node, level)?;
        for at in first..back.len() {
            if at >= self.order.len() {
                return Ok(());
            }
            let here = self.order.as_slice()[at];
            if here < back.len() {
                self.enter_all(back[here].as_slice(), level)?;
            }
        }
        Ok(())
    }

    /// Gives a level to each node that leads to one with a level: one more than the least level that it leads to.
    fn climb(&mut self, back: &[Items<usize>]) -> Result<(), NoMemory>
        ensures { OnOk result (length self.new.levels ≡ length self.old.levels) }
    {
        for at in 0..back.len() {
            if at >= self.order.len() {
                return Ok(());
            }
            let here = self.order.as_slice()[at];
            if here < back.len() && here < self.levels.len() {
                let level = self.levels.as_slice()[here].saturating_add(1);
                self.enter_all(back[here].as_slice(), level)?;
            }
        }
        Ok(())
    }
}

/// A level for each node. `order` has each node behind those to which it leads and which do not lead back to it.
pub(crate) fn levels(
    alloc: Global,
    back: &[Items<usize>],
    order: &[usize],
) -> Result<Items<u64>, NoMemory>
    ensures { IfOk result (λ levels. length levels ≡ length back.now) }
{
    let mut flood = Flood {
        levels: Items::from_vec(vec![in alloc; 0u64; back.len()]?),
        order: Items::new(alloc),
    };
    for passed in 0..order.len() {
        let last = order.len() - 1 - passed;
        flood.rise(back, order[last], passed as u64 + 1)?;
    }
    let Flood { levels, order: _ } = flood;
    Ok(levels)
}

/// For each node 1 more than the fewest links that lead from it to this one, and 0 where none do.
pub(crate) fn distances(
    alloc: Global,
    back: &[Items<usize>],
    node: usize,
) -> Result<Items<u64>, NoMemory>
    ensures { IfOk result (λ levels. length levels ≡ length back.now) }
{
    let mut flood = Flood {
        levels: Items::from_vec(vec![in alloc; 0u64; back.len()]?),
        order: Items::new(alloc),
    };
    flood.enter(node, 1)?;
    flood.climb(back)?;
    let Flood { levels, order: _ } = flood;
    Ok(levels)
}
