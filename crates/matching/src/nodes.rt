// What is known of a node.
ghost use Rattle.std.specs.Prelude.{◌≡◌};
ghost use Rattle.matching.specs.Levels.{seen};

/// The label and the size at a place.
#[derive(Clone, Copy, PartialEq, Eq, Debug)]
pub struct Node {
    pub label: u16,
    pub size: usize,
}

/// What a node is to those before it: a leaf with a label, or an inner node.
#[derive(Clone, Copy, PartialEq, Eq, Debug)]
pub enum Seen {
    Leaf(u16),
    Inner,
}

impl Node {
    // What the node is to those before it.
    pub(crate) fn seen(self) -> Seen
        ensures { result ≡ seen self }
    {
        if 1 < self.size {
            Seen::Inner
        } else {
            Seen::Leaf(self.label)
        }
    }
}
