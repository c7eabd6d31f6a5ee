// A session over a changeable tree of any make.
use crate::journal::Journal;
use crate::marks::Marks;
use crate::shelf::Shelf;
use trees::ChangeableTree;

mod asks;
mod clicks;
mod makes;
mod rebuilds;

/// A tree with its name, the patterns that are looked for in it, the clicks that can be undone, and the marks of the last
/// rebuild.
#[derive(Drop)]
pub struct Session<T: ChangeableTree> {
    tree: T,
    name: u32,
    shelf: Shelf,
    journal: Journal,
    marks: Marks,
}
