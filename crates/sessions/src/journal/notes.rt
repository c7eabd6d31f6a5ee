// What is noted in a journal, and taken back from it.
ghost use Rattle.std.specs.Prelude.{◌≡◌, ◌<◌, ◌≤◌, true, false, [], ◌∷◌, length, drop, IfOk, vec_len, vec_capacity, MatchOption, slice_index_or};
ghost use Rattle.runs.specs.Session.{total_changes};
ghost use Rattle.sessions.specs.Held.{change_of};
ghost use Rattle.sessions.specs.Journals.{clicks_of};

use crate::entry::{Click, Replaced};
use crate::journal::Journal;
use std::alloc::{AllocError, Global};

/// How many clicks a journal has room for.
pub(crate) const CLICKS: usize = 64;

/// How many changes a journal has room for.
pub(crate) const CHANGES: usize = 256;

impl Journal {
    /// An empty journal.
    pub(crate) fn new(heap: Global) -> Result<Journal, AllocError>
        ensures { IfOk result (λ j. (clicks_of j ≡ []) × (j.pending ≡ false)) }
    {
        let clicks = Vec::with_capacity(heap, CLICKS)?;
        let changes = Vec::with_capacity(heap, CHANGES)?;
        Ok(Journal {
            clicks,
            changes,
            pending: false,
        })
    }

    /// Whether a click is open.
    pub(crate) fn is_open(&self) -> bool
        ensures { result ≡ self.now.pending }
    {
        self.pending
    }

    /// How many clicks stand, the open one counted.
    pub(crate) fn clicks(&self) -> usize
        ensures { result ≡ length (clicks_of self.now) }
    {
        self.clicks.len()
    }

    /// How many changes stand.
    pub(crate) fn changes(&self) -> usize
        ensures { result ≡ total_changes (clicks_of self.now) }
    {
        self.changes.len()
    }

    /// Opens a click with no changes.
    pub(crate) fn begin(&mut self)
        requires { length (clicks_of self.old) < 64 }
        ensures held { clicks_of self.new ≡ [] ∷ clicks_of self.old }
        ensures opened { self.new.pending ≡ true }
    {
        self.clicks.push_reserved(Click { changes: 0 });
        self.pending = true;
    }

    /// Notes a change of the open click.
    pub(crate) fn note(&mut self, replaced: Replaced)
        requires during { self.old.pending ≡ true }
        requires room { total_changes (clicks_of self.old) < 256 }
        requires small { replaced.label < 32768 }
        ensures held { clicks_of self.new ≡ (change_of replaced ∷ slice_index_or (clicks_of self.old) 0 []) ∷ drop 1 (clicks_of self.old) }
        ensures opened { self.new.pending ≡ self.old.pending }
    {
        let click = self.clicks.last_mut().unwrap();
        click.changes += 1;
        self.changes.push_reserved(replaced);
    }

    /// Takes back the last change of the last click, if it has one.
    pub(crate) fn take_back(&mut self) -> Option<Replaced>
        requires { 0 < length (clicks_of self.old) }
        ensures held { MatchOption result (slice_index_or (clicks_of self.old) 0 [] ≡ []) (λ n. (clicks_of self.old ≡ (change_of n ∷ slice_index_or (clicks_of self.new) 0 []) ∷ drop 1 (clicks_of self.new)) × (n.label < 32768)) }
        ensures same { MatchOption result (self.new ≡ self.old) (λ _. self.new.pending ≡ self.old.pending) }
        ensures some { 0 < length (clicks_of self.new) }
    {
        let click = self.clicks.last_mut()?;
        click.changes = click.changes.checked_sub(1)?;
        self.changes.pop()
    }

    /// Forgets the last click, whose changes were all taken back.
    pub(crate) fn forget(&mut self)
        requires { (0 < length (clicks_of self.old)) × (slice_index_or (clicks_of self.old) 0 [] ≡ []) }
        ensures held { clicks_of self.new ≡ drop 1 (clicks_of self.old) }
        ensures closed { self.new.pending ≡ false }
    {
        let _ = self.clicks.pop();
        self.pending = false;
    }

    /// Ends the open click, which stays.
    pub(crate) fn keep(&mut self)
        ensures held { clicks_of self.new ≡ clicks_of self.old }
        ensures closed { self.new.pending ≡ false }
    {
        self.pending = false;
    }

    /// Forgets all clicks.
    pub(crate) fn clear(&mut self)
        ensures held { clicks_of self.new ≡ [] }
        ensures closed { self.new.pending ≡ false }
    {
        self.clicks.clear();
        self.changes.clear();
        self.pending = false;
    }
}
