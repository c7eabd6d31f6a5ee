// How a variable is bound.
ghost use Rattle.std.specs.Prelude.{◌≡◌, ◌+◌, ◌<◌, ◌≤◌, length, None, slice_index_or};
ghost use Rattle.trees.specs.Forest.{size_at};
ghost use Rattle.matching.specs.Rules.{bind, settled, tick};
ghost use Rattle.matching.specs.Answers.{ended};

use crate::found::Mismatch;
use crate::matcher::Matcher;
use trees::Tree;

impl<'t, T: Tree> Matcher<'t, T> {
    // Binds a variable to a place, or, if it has a place, compares the subtree there with the one at this place.
    pub(crate) fn bind_variable(
        &mut self,
        variable: u8,
        place: usize,
        size: usize,
    ) -> Result<(), Mismatch>
        requires variable { variable < 16 }
        requires place { place < length (T.Meant.meaning self.old.tree.now) }
        requires size { size ≡ size_at (T.Meant.meaning self.old.tree.now) place }
        requires room { self.old.found.steps + size ≤ 8192 }
        ensures answer { ended result self.new.found ≡ tick self.old.found.steps (bind (T.Meant.meaning self.old.tree.now) self.old.found.places (slice_index_or self.old.found.places variable None) variable place settled) }
        ensures brief { self.new.found.steps ≤ self.old.found.steps + size }
        ensures tree { self.new.tree ≡ self.old.tree }
    {
        let variable = usize::from(variable);
        match self.found.places[variable] {
            None => {
                self.found.places[variable] = Some(place);
                Ok(())
            }
            Some(first) => self.compare(first, place, size),
        }
    }
}
