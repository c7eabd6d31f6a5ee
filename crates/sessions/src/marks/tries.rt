// The marks brought up to date: which subtrees were touched, and which patterns match where they are tried.
ghost use Rattle.std.specs.Prelude.{◌≡◌, ◌<◌, ◌≤◌, false, ◌||◌, length, replicate, is_some, nat_le, slice_set};
ghost use Rattle.patterns.specs.Elements.{elements_of};
ghost use Rattle.trees.specs.Forest.{size_at};
ghost use Rattle.matching.specs.Rules.{match_at_lem};
ghost use Rattle.matching.specs.Answers.{steps_of as steps_told};
ghost use Rattle.runs.specs.Session.{up_to_date, rebuild_steps};
ghost use Rattle.sessions.specs.Looks.{touched_of, rows_of, marks_view};
ghost use Rattle.sessions.specs.Shelves.{shelf_view};
ghost use Rattle.sessions.specs.Tries.{seen, within, spreading, trying, trying_all, tried_steps, all_steps};

use crate::marks::{Mark, Marks};
use crate::shelf::Shelf;
use matching::{Match, match_at};
use patterns::Pattern;
use refusals::Refusal;
use trees::Tree;

// The size at a place, and 0 outside the tree, as the definition has it.
// Kept so: that there are as many marks as places is a law of runs, and no fact of a type.
fn size_of<T: Tree>(tree: &T, place: usize) -> usize
    ensures { result ≡ size_at (T.Meant.meaning tree.now) place }
{
    tree.size(place).unwrap_or(0)
}

// Whether the nearest touched place is among so many places from this one on.
fn reaches(nearest: Option<usize>, place: usize, size: usize) -> bool
    ensures { result ≡ within nearest place size }
{
    nearest.is_some_and(|at| at.saturating_sub(place) < size)
}

// The steps that a match took.
fn steps_of(found: Result<Match, Refusal>) -> u32
    ensures { result ≡ steps_told found }
{
    found.map_or_else(|refused| refused.steps, |found| found.steps)
}

impl Mark {
    // Whether a pattern is tried at the place: it is new, or the subtree was touched.
    fn tries(&self, is_new: bool) -> bool
        ensures { result ≡ (is_new || self.now.touched) }
    {
        is_new || self.touched
    }

    // Tries a pattern at the place, marks whether it matches, and answers the steps.
    fn try_pattern<T: Tree>(
        &mut self,
        tree: &T,
        pattern: &Pattern,
        number: usize,
        place: usize,
    ) -> u32
        requires { number < 16 }
        ensures steps { result ≡ (match_at_lem (T.Meant.meaning tree.now) (elements_of pattern.now.row) place).steps }
        ensures few { result ≤ 8192 }
        ensures touched { self.new.touched ≡ self.old.touched }
        ensures matched { self.new.matched ≡ slice_set self.old.matched number (is_some (match_at_lem (T.Meant.meaning tree.now) (elements_of pattern.now.row) place).bound) }
    {
        let found = match_at(tree, pattern, place);
        self.matched[number] = found.is_ok();
        steps_of(found)
    }
}

impl Marks {
    // Notes for each place whether a place of its subtree was touched, in one pass from the last place to the first.
    fn spread<T: Tree>(&mut self, tree: &T)
        ensures { marks_view self.new ≡ spreading (T.Meant.meaning tree.now) (marks_view self.old) }
    {
        // Kept as a loop over numbers: of the marks written through a reversed `iter_mut` nothing is known behind the loop, not even
        // their number, so that form had no proof.
        let mut nearest = None;
        for place in (0..self.places.len()).rev() {
            let touched = self.places[place].touched;
            nearest = touched.then_some(place).or(nearest);
            self.places[place].touched = reaches(nearest, place, size_of(tree, place));
        }
    }

    // Tries a pattern at each place where it is to be tried, and answers the steps.
    fn try_pattern<T: Tree>(&mut self, tree: &T, pattern: &Pattern, number: usize) -> u32
        requires { number < 16 }
        ensures steps { result ≡ tried_steps (T.Meant.meaning tree.now) (elements_of pattern.now.row) (nat_le self.old.tried number) (marks_view self.old).touched (length (marks_view self.old).marks) }
        ensures few { result ≤ 33554432 }
        ensures marks { marks_view self.new ≡ trying (T.Meant.meaning tree.now) (elements_of pattern.now.row) number (marks_view self.old) }
    {
        let is_new = self.tried <= number;
        let mut steps = 0;
        for (place, mark) in self.places.iter_mut().enumerate() {
            if mark.tries(is_new) {
                steps += mark.try_pattern(tree, pattern, number, place);
            }
        }
        steps
    }

    // Tries each pattern of a shelf where it is to be tried, and answers the steps.
    fn try_patterns<T: Tree>(&mut self, tree: &T, shelf: &Shelf) -> u32
        ensures steps { result ≡ all_steps (T.Meant.meaning tree.now) (shelf_view shelf.now) self.old.tried (marks_view self.old).touched (length (marks_view self.old).marks) (length (shelf_view shelf.now)) }
        ensures marks { marks_view self.new ≡ trying_all (T.Meant.meaning tree.now) (shelf_view shelf.now) (length (shelf_view shelf.now)) (marks_view self.old) }
    {
        // Kept as a loop over numbers: the shelf gives each pattern by its number, and the number is the column of the marks.
        let mut steps = 0;
        for number in 0..shelf.count() {
            steps += self.try_pattern(tree, &shelf.pattern(number), number);
        }
        steps
    }

    // Notes that no place is touched.
    fn rest(&mut self)
        ensures touched { touched_of self.new.places.items ≡ replicate (length (marks_view self.old).touched) false }
        ensures rows { rows_of self.new.places.items ≡ rows_of self.old.places.items }
    {
        for mark in self.places.iter_mut() {
            mark.touched = false;
        }
    }

    /// Brings the marks up to date, and answers the steps.
    pub(crate) fn rebuild<T: Tree>(&mut self, tree: &T, shelf: &Shelf) -> u32
        ensures marks { marks_view self.new ≡ up_to_date (seen (T.Meant.meaning tree.now) (shelf_view shelf.now) (marks_view self.old)) }
        ensures steps { result ≡ rebuild_steps (seen (T.Meant.meaning tree.now) (shelf_view shelf.now) (marks_view self.old)) }
    {
        self.spread(tree);
        let steps = self.try_patterns(tree, shelf);
        self.rest();
        self.tried = shelf.count();
        self.stale = false;
        steps
    }
}
