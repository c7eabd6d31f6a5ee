// Clicks: opened, changed, committed, abandoned, undone and settled; and patterns, added.
ghost use Rattle.std.specs.Prelude.{◌≡◌, ◌<◌, [], ◌∷◌, length, drop, true, false, IfErr, MatchResult, None as Nothing, OnErr, slice_index_or};
ghost use Rattle.patterns.specs.Elements.{elements_of};
ghost use Rattle.refusals.specs.Numbers.{refused as refusal_of};
ghost use Rattle.refusals.specs.declared.Layer.TheVariants.{Session as SessionLayer};
ghost use Rattle.runs.specs.Session.{turn, open_click, change as to_change, commit as to_commit, abandon as to_abandon, undo as to_undo, settle as to_settle, add as to_add, is_open, wrong, noting, putting};
ghost use Rattle.sessions.specs.Journals.{clicks_of};
ghost use Rattle.sessions.specs.View.{view, receipt_answer, done_answer, spent_answer, number_answer};

use crate::entry::Replaced;
use crate::journal::{CHANGES, CLICKS};
use crate::receipt::Receipt;
use crate::session::Session;
use crate::session::makes::refuse_if;
use crate::shelf::PATTERNS;
use patterns::Pattern;
use refusals::{Cause, Refusal};
use trees::ChangeableTree;

impl<T: ChangeableTree> Session<T> {
    // Whether a click is open.
    pub(crate) fn is_open(&self) -> bool
        ensures { result ≡ is_open (view T.Meant.meaning self.now) }
    {
        self.journal.is_open()
    }

    // Refuses while a click is open.
    pub(crate) fn closed(&self) -> Result<(), Refusal>
        ensures { MatchResult result (λ _. is_open (view T.Meant.meaning self.now) ≡ false) (λ e. (is_open (view T.Meant.meaning self.now) ≡ true) × (e ≡ refusal_of Cause.ClickOpen SessionLayer 0 0)) }
    {
        refuse_if(self.is_open(), Cause::ClickOpen)
    }

    // Refuses a receipt that is not that of the open click.
    fn admits(&self, receipt: &Receipt) -> Result<(), Refusal>
        ensures { MatchResult result (λ _. wrong (view T.Meant.meaning self.now) receipt.now.session ≡ false) (λ e. (wrong (view T.Meant.meaning self.now) receipt.now.session ≡ true) × (e ≡ refusal_of Cause.WrongClick SessionLayer 0 0)) }
    {
        let right = self.is_open() && receipt.session == self.name;
        refuse_if(!right, Cause::WrongClick)
    }

    // Spends the receipt of the open click; another one comes back.
    fn spend(&self, receipt: Receipt) -> Result<(), (Receipt, Refusal)>
        ensures { MatchResult result (λ _. wrong (view T.Meant.meaning self.now) receipt.session ≡ false) (λ e. (wrong (view T.Meant.meaning self.now) receipt.session ≡ true) × (e.0 ≡ receipt) × (e.1 ≡ refusal_of Cause.WrongClick SessionLayer 0 0)) }
    {
        // Not by `?`: the receipt goes back with the refusal.
        if let Err(refused) = self.admits(&receipt) {
            return Err((receipt, refused));
        }
        let Receipt { session: _ } = receipt;
        Ok(())
    }

    // Puts the labels of the last click back, the last change first, and forgets the click.
    fn put_back(&mut self)
        requires { 0 < length (clicks_of self.old.journal) }
        ensures { view T.Meant.meaning self.new ≡ noting (putting (view T.Meant.meaning self.old) (slice_index_or (clicks_of self.old.journal) 0 [])) (drop 1 (clicks_of self.old.journal)) Nothing }
    {
        while let Some(replaced) = self.journal.take_back() {
            let _ = self.tree.put(replaced.place, replaced.label);
            self.marks.touch(replaced.place);
        }
        self.journal.forget();
        self.marks.outdate();
    }

    /// Opens a click, and gives its receipt.
    pub fn open(&mut self) -> Result<Receipt, Refusal>
        ensures turns { (view T.Meant.meaning self.new, receipt_answer result) ≡ turn (view T.Meant.meaning self.old) open_click }
        ensures same { OnErr result (self.new ≡ self.old) }
    {
        self.closed()?;
        refuse_if(self.journal.clicks() >= CLICKS, Cause::JournalFull)?;
        self.journal.begin();
        Ok(Receipt { session: self.name })
    }

    /// Puts a label at a place, and notes the label that stood there.
    pub fn change(&mut self, receipt: &Receipt, place: usize, label: u16) -> Result<(), Refusal>
        ensures turns { (view T.Meant.meaning self.new, done_answer result) ≡ turn (view T.Meant.meaning self.old) (to_change receipt.now.session place label) }
        ensures same { OnErr result (self.new ≡ self.old) }
    {
        self.admits(receipt)?;
        let old = self.tree.label(place)?;
        refuse_if(self.journal.changes() >= CHANGES, Cause::JournalFull)?;
        self.tree.put(place, label)?;
        self.journal.note(Replaced { place, label: old });
        self.marks.touch(place);
        Ok(())
    }

    /// Ends the open click, which can be undone from now on. A refusal gives the receipt back.
    pub fn commit(&mut self, receipt: Receipt) -> Result<(), (Receipt, Refusal)>
        ensures turns { (view T.Meant.meaning self.new, spent_answer result) ≡ turn (view T.Meant.meaning self.old) (to_commit receipt.session) }
        ensures same { IfErr result (λ e. (self.new ≡ self.old) × (e.0 ≡ receipt)) }
    {
        self.spend(receipt)?;
        self.journal.keep();
        Ok(())
    }

    /// Puts the labels of the open click back, the last first, and forgets the click. A refusal gives the receipt back.
    pub fn abandon(&mut self, receipt: Receipt) -> Result<(), (Receipt, Refusal)>
        ensures turns { (view T.Meant.meaning self.new, spent_answer result) ≡ turn (view T.Meant.meaning self.old) (to_abandon receipt.session) }
        ensures same { IfErr result (λ e. (self.new ≡ self.old) × (e.0 ≡ receipt)) }
    {
        self.spend(receipt)?;
        self.put_back();
        Ok(())
    }

    /// Puts the labels of the last committed click back, the last first, and forgets the click.
    pub fn undo(&mut self) -> Result<(), Refusal>
        ensures turns { (view T.Meant.meaning self.new, done_answer result) ≡ turn (view T.Meant.meaning self.old) to_undo }
        ensures same { OnErr result (self.new ≡ self.old) }
    {
        self.closed()?;
        refuse_if(self.journal.clicks() == 0, Cause::NothingToUndo)?;
        self.put_back();
        Ok(())
    }

    /// Forgets all clicks, and answers how many there were.
    pub fn settle(&mut self) -> Result<usize, Refusal>
        ensures turns { (view T.Meant.meaning self.new, number_answer result) ≡ turn (view T.Meant.meaning self.old) to_settle }
        ensures same { OnErr result (self.new ≡ self.old) }
    {
        self.closed()?;
        let clicks = self.journal.clicks();
        self.journal.clear();
        Ok(clicks)
    }

    /// Adds a pattern behind the others, and answers its number.
    pub fn add(&mut self, pattern: &Pattern) -> Result<usize, Refusal>
        ensures turns { (view T.Meant.meaning self.new, number_answer result) ≡ turn (view T.Meant.meaning self.old) (to_add (elements_of pattern.now.row)) }
        ensures same { OnErr result (self.new ≡ self.old) }
    {
        self.closed()?;
        let number = self.shelf.count();
        refuse_if(number >= PATTERNS, Cause::ShelfFull)?;
        self.shelf.add(pattern);
        self.marks.outdate();
        Ok(number)
    }
}
