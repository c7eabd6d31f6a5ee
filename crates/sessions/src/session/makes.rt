// How a session is made, what it is over, and how it ends.
ghost use Rattle.std.specs.Prelude.{◌≡◌, ◌≤◌, true, false, [], IfOk, MatchResult};
ghost use Rattle.refusals.specs.Numbers.{refused as refusal_of};
ghost use Rattle.refusals.specs.declared.Layer.TheVariants.{Session as SessionLayer};
ghost use Rattle.runs.specs.Session.{making, no_marks, refused};
ghost use Rattle.sessions.specs.Journals.{clicks_of};
ghost use Rattle.sessions.specs.Looks.{marks_view};
ghost use Rattle.sessions.specs.Shelves.{shelf_view};
ghost use Rattle.sessions.specs.View.{view, refusal_answer};

use crate::journal::Journal;
use crate::marks::Marks;
use crate::session::Session;
use crate::shelf::Shelf;
use refusals::{Cause, Layer, Refusal};
use std::alloc::{AllocError, Global};
use trees::ChangeableTree;

// The refusal of a session.
pub(crate) fn refusal(cause: Cause) -> Refusal
    ensures { result ≡ refusal_of cause SessionLayer 0 0 }
{
    Refusal::at(cause, Layer::Session, 0)
}

// Refuses for a cause if a test holds.
pub(crate) fn refuse_if(test: bool, cause: Cause) -> Result<(), Refusal>
    ensures { MatchResult result (λ _. test ≡ false) (λ e. (test ≡ true) × (e ≡ refusal_of cause SessionLayer 0 0)) }
{
    if test { Err(refusal(cause)) } else { Ok(()) }
}

// An empty shelf, an empty journal, and no marks.
fn parts(heap: Global, places: usize) -> Result<(Shelf, Journal, Marks), AllocError>
    requires { places ≤ 4096 }
    ensures { IfOk result (λ p. (shelf_view p.0 ≡ []) × ((clicks_of p.1 ≡ []) × (p.1.pending ≡ false)) × (marks_view p.2 ≡ no_marks places)) }
{
    let shelf = Shelf::new(heap)?;
    let journal = Journal::new(heap)?;
    let marks = Marks::new(heap, places)?;
    Ok((shelf, journal, marks))
}

impl<T: ChangeableTree> Session<T> {
    /// A session over a tree, under a name, with no pattern and an empty journal. All its room is taken here; where there is
    /// none, the tree comes back.
    pub fn new(heap: Global, tree: T, name: u32) -> Result<Session<T>, (T, Refusal)>
        ensures begun { MatchResult result (λ s. view T.Meant.meaning s ≡ making (T.Meant.meaning tree) name) (λ e. (e.0 ≡ tree) × (refusal_answer e.1 ≡ refused 27 6 0 0)) }
        ensures kept { MatchResult result (λ s. s.tree ≡ tree) (λ e. e.0 ≡ tree) }
    {
        let places = tree.places();
        // A match, since the tree moves into the session or back to the caller.
        match parts(heap, places) {
            Ok((shelf, journal, marks)) => Ok(Session {
                tree,
                name,
                shelf,
                journal,
                marks,
            }),
            Err(_) => Err((tree, refusal(Cause::NoMemory))),
        }
    }

    /// The tree.
    pub fn tree(&self) -> &T
        ensures { result.now ≡ self.now.tree }
    {
        &self.tree
    }

    /// Ends the session, and gives the tree back.
    pub fn end(self) -> T
        ensures { result ≡ self.tree }
    {
        let Session {
            tree,
            name: _,
            shelf: _,
            journal: _,
            marks: _,
        } = self;
        tree
    }
}
