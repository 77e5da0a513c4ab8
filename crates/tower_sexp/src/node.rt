//! Nodes, and the nodes that tokens spell.
ghost use Rattle.std.specs.Prelude.{◌≡◌, ◌++◌, OnOk, IfOk, List, [], ◌∷◌};
ghost use Rattle.tower_sexp.specs.Trees.{trees_of};
ghost use Rattle.tower_sexp.specs.Nesting.{nest_of, nest_begun, nested, trees_spelled};

use crate::token::Token;
use sqlite_items::Items;
use std::alloc::{AllocError, Global};
use std::mem;

/// An atom, or a list of nodes, with the offset of its first byte.
#[derive(Debug, Drop)]
pub enum Node {
    Atom { at: u32, text: Items<u8> },
    List { at: u32, items: Items<Node> },
}

/// A list that is unclosed, with the nodes before it.
#[derive(Drop)]
struct Outer {
    at: u32,
    before: Items<Node>,
}

/// The nodes of tokens so far.
#[derive(Drop)]
struct Nest {
    alloc: Global,
    /// The lists that are unclosed, the innermost last.
    outer: Vec<Outer>,
    /// The nodes of the innermost.
    nodes: Items<Node>,
}

impl Nest {
    fn new(alloc: Global) -> Nest
        ensures { nest_of result ≡ nest_begun }
    {
        Nest {
            alloc,
            outer: Vec::new(alloc),
            nodes: Items::new(alloc),
        }
    }

    fn open(&mut self, at: u32) -> Result<(), AllocError>
        ensures { OnOk result (nest_of self.new ≡ nested (Token.Left at) (nest_of self.old)) }
    {
        let before = mem::replace(&mut self.nodes, Items::new(self.alloc));
        self.outer.push(Outer { at, before })?;
        Ok(())
    }

    #[tactic(auto, using(crate::proofs::Seen::push_list))]
    fn close(&mut self, close_at: u32) -> Result<(), AllocError>
        ensures { OnOk result (nest_of self.new ≡ nested (Token.Right close_at) (nest_of self.old)) }
    {
        if let Some(Outer { at, before }) = self.outer.pop() {
            let items = mem::replace(&mut self.nodes, before);
            self.nodes.push(Node::List { at, items })?;
        }
        Ok(())
    }

    #[tactic(auto, using(crate::proofs::Seen::push_atom))]
    fn token(&mut self, token: Token) -> Result<(), AllocError>
        ensures { OnOk result (nest_of self.new ≡ nested token (nest_of self.old)) }
    {
        match token {
            Token::Left { at } => self.open(at),
            Token::Right { at } => self.close(at),
            Token::Atom { at, text } => {
                self.nodes.push(Node::Atom { at, text })?;
                Ok(())
            }
        }
    }
}

/// The nodes that tokens spell, where they spell any.
pub(crate) fn nodes(alloc: Global, tokens: Vec<Token>) -> Result<Items<Node>, AllocError>
    ensures { IfOk result (λ nodes. trees_of nodes ≡ trees_spelled tokens.items) }
{
    let mut nest = Nest::new(alloc);
    let mut tokens = tokens.into_iter();
    while let Some(token) = tokens.next() {
        nest.token(token)?;
    }
    let Nest { nodes, .. } = nest;
    Ok(nodes)
}
