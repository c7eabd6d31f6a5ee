// A match that is under way, and what it asks of the tree.
ghost use Rattle.std.specs.Prelude.{◌≡◌, ◌<◌, length};
ghost use Rattle.trees.specs.Forest.{label_at, size_at};
ghost use Rattle.matching.specs.Levels.{BoundInside};

use crate::found::Match;
use crate::nodes::Node;
use trees::Tree;

/// A match in a tree that is under way, and what it has found so far: each bound place is one of the tree's.
// Kept as clauses of the methods: that a place lies in the tree is asked of each method's own argument, and a type that carries it would
// be made anew at each node; that the tree stays is said by each that takes `&mut self`.
#[derive(Drop)]
pub(crate) struct Matcher<'t, T: Tree> {
    pub(crate) tree: &'t T,
    pub(crate) found: Match,
    ghost inside: { BoundInside (T.Meant.meaning tree.now) found.places },
}

impl<'t, T: Tree> Matcher<'t, T> {
    // The node at a place of the tree.
    pub(crate) fn node_at(&self, place: usize) -> Node
        requires { place < length (T.Meant.meaning self.now.tree.now) }
        ensures label { result.label ≡ label_at (T.Meant.meaning self.now.tree.now) place }
        ensures size { result.size ≡ size_at (T.Meant.meaning self.now.tree.now) place }
    {
        let label = self.tree.label(place).unwrap();
        let size = self.tree.size(place).unwrap();
        Node { label, size }
    }
}
