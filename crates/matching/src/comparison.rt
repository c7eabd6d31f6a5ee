// How two subtrees are compared.
ghost use Rattle.std.specs.Prelude.{◌≡◌, ◌+◌, ◌<◌, ◌≤◌, length, is_ok};
ghost use Rattle.trees.specs.Forest.{size_at, subtree, same, compared};

use crate::found::Mismatch;
use crate::matcher::Matcher;
use trees::Tree;

impl<'t, T: Tree> Matcher<'t, T> {
    // Compares the subtrees at two places, pair by pair in preorder up to the first difference, a step for each pair; the size is that at the second.
    pub(crate) fn compare(
        &mut self,
        first: usize,
        second: usize,
        size: usize,
    ) -> Result<(), Mismatch>
        requires first { first < length (T.Meant.meaning self.old.tree.now) }
        requires second { second < length (T.Meant.meaning self.old.tree.now) }
        requires size { size ≡ size_at (T.Meant.meaning self.old.tree.now) second }
        requires room { self.old.found.steps + size ≤ 8192 }
        ensures same { let m = T.Meant.meaning self.old.tree.now in is_ok result ≡ same (subtree m first) (subtree m second) }
        ensures steps { let m = T.Meant.meaning self.old.tree.now in self.new.found.steps ≡ self.old.found.steps + compared (subtree m first) (subtree m second) }
        ensures places { self.new.found.places ≡ self.old.found.places }
        ensures tree { self.new.tree ≡ self.old.tree }
    {
        // Kept as a loop over numbers: a tree is known by its questions alone, so there are no two slices to `zip`.
        for i in 0..size {
            self.found.steps += 1;
            if self.node_at(first + i) != self.node_at(second + i) {
                return Err(Mismatch);
            }
        }
        Ok(())
    }
}
