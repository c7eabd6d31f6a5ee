// Questions: the findings of the last rebuild, the first of them, and the bindings of a pattern at a place.
ghost use Rattle.std.specs.Prelude.{◌≡◌, ◌+◌, ◌<◌, ◌≤◌, ◌++◌, length, take, drop, false, MatchResult, OnErr};
ghost use Rattle.runs.specs.Session.{Question, turn, ask, asking, is_open, findings as all_findings, first_finding, bindings as to_bind, places as places_of, marked_at, all_found};
ghost use Rattle.sessions.specs.Firsts.{First};
ghost use Rattle.sessions.specs.View.{view, refusal_answer, wrote_answer, found_answer, bound_answer};

use crate::session::Session;
use crate::session::makes::{refusal, refuse_if};
use matching::{Match, match_at};
use refusals::{Cause, Refusal};
use trees::ChangeableTree;

impl<T: ChangeableTree> Session<T> {
    // Refuses each question while a click is open, and while the marks are stale.
    fn current(&self) -> Result<(), Refusal>
        ensures { MatchResult result (λ _. (is_open (view T.Meant.meaning self.now) ≡ false) × (self.now.marks.stale ≡ false)) (λ e. (q : Question) → refusal_answer e ≡ asking (view T.Meant.meaning self.now) q) }
    {
        self.closed()?;
        refuse_if(self.marks.is_stale(), Cause::Stale)
    }

    // The first mark: the lowest place, and there the lowest pattern.
    // Kept as a nested scan that its label leaves: it is one of the forms of code that docs/DECISIONS.md lists.
    fn first_mark(&self) -> Option<(usize, usize)>
        ensures { First (view T.Meant.meaning self.now) result }
    {
        let places = self.marks.places();
        let patterns = self.shelf.count();
        let mut found = None;
        'scan: for place in 0..places {
            for pattern in 0..patterns {
                if self.marks.marked(place, pattern) {
                    found = Some((place, pattern));
                    break 'scan;
                }
            }
        }
        found
    }

    // How many marks there are.
    fn count_marks(&self) -> usize
        ensures { result ≡ length (all_found (view T.Meant.meaning self.now)) }
    {
        self.marks.count(self.shelf.count())
    }

    // Writes the marks at a place into a slice from some element on, and says how far.
    // Kept as a loop that counts: of what is written through a lent `iter_mut` nothing but the length is known behind the loop.
    fn write_at(&self, place: usize, out: &mut [(usize, usize)], from: usize) -> usize
        requires inside { place < length (view T.Meant.meaning self.now).look.marks }
        requires room { from + length (marked_at (view T.Meant.meaning self.now) place (length (view T.Meant.meaning self.now).patterns)) ≤ length out.old }
        ensures end { result ≡ from + length (marked_at (view T.Meant.meaning self.now) place (length (view T.Meant.meaning self.now).patterns)) }
        ensures written { out.new ≡ take from out.old ++ (marked_at (view T.Meant.meaning self.now) place (length (view T.Meant.meaning self.now).patterns) ++ drop result out.old) }
    {
        let patterns = self.shelf.count();
        let mut next = from;
        for pattern in 0..patterns {
            if self.marks.marked(place, pattern) {
                out[next] = (place, pattern);
                next += 1;
            }
        }
        next
    }

    // Writes all marks to the start of a slice.
    // Kept as a loop that counts, as `write_at`, which says how far it wrote.
    fn write_marks(&self, out: &mut [(usize, usize)])
        requires { length (all_found (view T.Meant.meaning self.now)) ≤ length out.old }
        ensures { out.new ≡ all_found (view T.Meant.meaning self.now) ++ drop (length (all_found (view T.Meant.meaning self.now))) out.old }
    {
        let places = self.marks.places();
        let mut next = 0;
        for place in 0..places {
            next = self.write_at(place, out, next);
        }
    }

    /// Writes all findings, by place and then by pattern, to the start of a slice, and answers how many there are.
    pub fn findings(&self, out: &mut [(usize, usize)]) -> Result<usize, Refusal>
        ensures turns { (view T.Meant.meaning self.now, wrote_answer out.new result) ≡ turn (view T.Meant.meaning self.now) (ask (all_findings out.old)) }
        ensures same { OnErr result (out.new ≡ out.old) }
    {
        self.current()?;
        let count = self.count_marks();
        refuse_if(count > out.len(), Cause::NoRoom)?;
        self.write_marks(out);
        Ok(count)
    }

    /// The first finding: the lowest place, and there the lowest pattern.
    pub fn first_finding(&self) -> Result<(usize, usize), Refusal>
        ensures { (view T.Meant.meaning self.now, found_answer result) ≡ turn (view T.Meant.meaning self.now) (ask first_finding) }
    {
        self.current()?;
        self.first_mark().ok_or(refusal(Cause::NoMatch))
    }

    /// The bindings of a pattern at a place, and the steps that the match took.
    pub fn bindings(&self, pattern: usize, place: usize) -> Result<Match, Refusal>
        ensures { (view T.Meant.meaning self.now, bound_answer result) ≡ turn (view T.Meant.meaning self.now) (ask (to_bind pattern place)) }
    {
        self.current()?;
        refuse_if(pattern >= self.shelf.count(), Cause::NoSuchPattern)?;
        match_at(&self.tree, &self.shelf.pattern(pattern), place)
    }
}
