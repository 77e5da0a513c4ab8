//! When a file that is built as a tree is accepted once it is printed: tests of the tree that compute, at no text and at
//! no offset. All of it is laws.
#![tactic(auto)]

pub mod laws;
