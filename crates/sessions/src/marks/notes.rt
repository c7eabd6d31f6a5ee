// What is noted among the marks, and read from them.
ghost use Rattle.std.specs.Prelude.{◌≡◌, ◌<◌, ◌≤◌, Bool, true, false, List, [], ◌∷◌, length, take, sum_by, count_by, IfOk, slice_index_or};
ghost use Rattle.runs.specs.Session.{touching, no_marks};
ghost use Rattle.sessions.specs.Looks.{marks_view};

use crate::marks::{Mark, Marks};
use crate::shelf::PATTERNS;
use std::alloc::{AllocError, Global};

impl Mark {
    // How many of the first patterns are marked at the place.
    fn count(&self, patterns: usize) -> usize
        requires { patterns ≤ 16 }
        ensures value { result ≡ count_by (λ (b : Bool). b) (take patterns self.now.matched) }
        ensures few { result ≤ 16 }
    {
        self.matched[..patterns].iter().filter(|hit| **hit).count()
    }
}

impl Marks {
    /// No marks, for a tree of so many places.
    pub(crate) fn new(heap: Global, places: usize) -> Result<Marks, AllocError>
        requires { places ≤ 4096 }
        ensures { IfOk result (λ k. marks_view k ≡ no_marks places) }
    {
        let blank = Mark {
            touched: false,
            matched: [false; PATTERNS],
        };
        let places = vec![in heap; blank; places]?;
        Ok(Marks {
            tried: 0,
            places,
            stale: false,
        })
    }

    /// Whether anything changed since the last rebuild.
    pub(crate) fn is_stale(&self) -> bool
        ensures { result ≡ self.now.stale }
    {
        self.stale
    }

    /// How many places there are.
    pub(crate) fn places(&self) -> usize
        ensures { (result ≡ length (marks_view self.now).marks) × (result ≤ 4096) }
    {
        self.places.len()
    }

    /// Whether a pattern is marked at a place.
    pub(crate) fn marked(&self, place: usize, pattern: usize) -> bool
        requires { (place < length (marks_view self.now).marks) × (pattern < 16) }
        ensures { result ≡ slice_index_or (slice_index_or (marks_view self.now).marks place []) pattern false }
    {
        self.places[place].matched[pattern]
    }

    /// How many of the first patterns are marked, at all places together.
    pub(crate) fn count(&self, patterns: usize) -> usize
        requires { patterns ≤ 16 }
        ensures { result ≡ sum_by (λ (r : List Bool). count_by (λ (b : Bool). b) (take patterns r)) (marks_view self.now).marks }
    {
        self.places.iter().map(|mark| mark.count(patterns)).sum()
    }

    /// Notes that a place is touched, and that the marks are stale.
    pub(crate) fn touch(&mut self, place: usize)
        ensures { marks_view self.new ≡ touching (marks_view self.old) (record { place = place; label = 0 } ∷ []) }
    {
        self.stale = true;
        if let Some(mark) = self.places.get_mut(place) {
            mark.touched = true;
        }
    }

    /// Notes that the marks are stale.
    pub(crate) fn outdate(&mut self)
        ensures { marks_view self.new ≡ touching (marks_view self.old) [] }
    {
        self.stale = true;
    }
}
