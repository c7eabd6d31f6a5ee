// The calls of a player, each noted.
ghost use Rattle.std.specs.Prelude.{◌≡◌, ℕ, List, MatchOption};
ghost use Rattle.sessions.specs.Lent.{in_the_hand, SpentBy};
ghost use Rattle.sessions.specs.Plays.{Noted, table_of, played_one, note_answer, playable, stands};
ghost use Rattle.sessions.specs.View.{view};

use crate::call::{Answer, Call, Hand, Note};
use crate::player::Player;
use crate::player::hands::put;
use crate::receipt::Receipt;
use crate::session::Session;
use refusals::Refusal;
use trees::ChangeableTree;

impl<T: ChangeableTree> Player<T> {
    // Opens a click; its receipt becomes the player's own.
    fn open(&mut self) -> Note
        ensures { (o : List (ℕ × ℕ)) → record { state = view T.Meant.meaning self.new.session; table = table_of self.new.hands o; answer = note_answer o result } ≡ played_one (view T.Meant.meaning self.old.session) (table_of self.old.hands o) Call.Open }
    {
        // Kept as a match: `map` with a closure that puts the receipt into the hand was tried; what it wrote there was not known behind it.
        match self.session.open() {
            Ok(receipt) => {
                let name = receipt.session;
                put(&mut self.hands.own, receipt);
                Some(Ok(Answer::Opened(name)))
            }
            Err(refused) => Some(Err(refused)),
        }
    }

    // Changes a label with the receipt in a hand.
    fn change(&mut self, hand: Hand, place: usize, label: u16) -> Note
        ensures { (o : List (ℕ × ℕ)) → record { state = view T.Meant.meaning self.new.session; table = table_of self.new.hands o; answer = note_answer o result } ≡ played_one (view T.Meant.meaning self.old.session) (table_of self.old.hands o) (Call.Change hand place label) }
    {
        let receipt = self.hands.held(hand)?;
        Some(
            self.session
                .change(receipt, place, label)
                .map(|()| Answer::Done),
        )
    }

    // Makes a call that spends the receipt in a hand; one that comes back is put in its place.
    fn spend<F: FnOnce(&mut Session<T>, Receipt) -> Result<(), (Receipt, Refusal)>>(
        &mut self,
        hand: Hand,
        call: F,
    ) -> Note
        requires { F.IsAlwaysCallable call }
        ensures { MatchOption (in_the_hand hand self.old.hands) ((self.new ≡ self.old) × (result ≡ None)) (λ k. SpentBy (F.post call) hand k self.old.session self.old.hands self.new.session self.new.hands result) }
    {
        let receipt = self.hands.slot(hand).take()?;
        // A match, since a receipt that comes back is put in its place.
        match call(&mut self.session, receipt) {
            Ok(()) => Some(Ok(Answer::Done)),
            Err((receipt, refused)) => {
                put(self.hands.slot(hand), receipt);
                Some(Err(refused))
            }
        }
    }

    // Makes one call, with the receipts in hand, and notes its answer.
    pub(crate) fn act(&mut self, out: &mut [(usize, usize)], call: &Call) -> Note
        ensures { record { state = view T.Meant.meaning self.new.session; table = table_of self.new.hands out.new; answer = note_answer out.new result } ≡ played_one (view T.Meant.meaning self.old.session) (table_of self.old.hands out.old) call.now }
    {
        match call {
            Call::Open => self.open(),
            Call::Change { hand, place, label } => self.change(*hand, *place, *label),
            Call::Commit(hand) => self.spend(*hand, Session::commit),
            Call::Abandon(hand) => self.spend(*hand, Session::abandon),
            Call::Undo => Some(self.session.undo().map(|()| Answer::Done)),
            Call::Settle => Some(self.session.settle().map(Answer::Number)),
            Call::Add(pattern) => Some(self.session.add(pattern).map(Answer::Number)),
            Call::Rebuild => Some(self.session.rebuild().map(Answer::Steps)),
            Call::Findings => Some(self.session.findings(out).map(Answer::Wrote)),
            Call::FirstFinding => Some(
                self.session
                    .first_finding()
                    .map(|(place, pattern)| Answer::Found(place, pattern)),
            ),
            Call::Bindings { pattern, place } => Some(
                self.session.bindings(*pattern, *place).map(Answer::Bound),
            ),
        }
    }

    // Makes calls one after the other and notes each answer, as far as there is room for notes.
    pub(crate) fn play_on(&mut self, out: &mut [(usize, usize)], calls: &[Call], notes: &mut [Note])
        ensures states { view T.Meant.meaning self.new.session ≡ (stands (view T.Meant.meaning self.old.session) (table_of self.old.hands out.old) calls.now (playable calls.now notes.old)).state }
        ensures noted { Noted (view T.Meant.meaning self.old.session) (table_of self.old.hands out.old) calls.now notes.old notes.new (table_of self.new.hands out.new) }
    {
        // Kept as writes by number: of what is written through the references of a `zip` with `iter_mut` nothing but the length is
        // known behind the loop, so that form had no proof.
        let count = calls.len().min(notes.len());
        for (i, call) in calls[..count].iter().enumerate() {
            notes[i] = self.act(out, call);
        }
    }
}
