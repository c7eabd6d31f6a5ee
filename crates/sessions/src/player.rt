// A player: a session, with the receipts of its own clicks and a foreign one.
mod acts;
mod hands;

ghost use Rattle.std.specs.Prelude.{◌≡◌, ℕ, List};
ghost use Rattle.sessions.specs.Plays.{at_end, receipt_name, first_table, table_of};
ghost use Rattle.sessions.specs.View.{view};

use crate::call::Hands;
use crate::receipt::Receipt;
use crate::session::Session;
use trees::ChangeableTree;

/// A session and the receipts that were handed out or handed in while calls were played on it.
pub struct Player<T: ChangeableTree> {
    pub(crate) session: Session<T>,
    pub(crate) hands: Hands,
}

impl<T: ChangeableTree> Player<T> {
    // A player of a session, which holds a foreign receipt alone.
    pub(crate) fn new(session: Session<T>, foreign: Receipt) -> Player<T>
        ensures session { result.session ≡ session }
        ensures tables { (o : List (ℕ × ℕ)) → table_of result.hands o ≡ first_table foreign.session o }
    {
        Player {
            session,
            hands: Hands {
                own: None,
                foreign: Some(foreign),
            },
        }
    }

    /// The session.
    pub fn session(&self) -> &Session<T>
        ensures { result.now ≡ self.now.session }
    {
        &self.session
    }

    /// Ends the session, whose open click is abandoned if its receipt is held, and gives back the tree and what is left of the
    /// foreign receipt.
    pub fn end(self) -> (T, Option<Receipt>)
        ensures tree { T.Meant.meaning result.0 ≡ (at_end (view T.Meant.meaning self.session) (receipt_name self.hands.own)).tree }
        ensures foreign { result.1 ≡ self.hands.foreign }
    {
        let Player { mut session, hands } = self;
        let Hands { own, foreign } = hands;
        if let Some(receipt) = own {
            if let Err((receipt, _)) = session.abandon(receipt) {
                let Receipt { session: _ } = receipt;
            }
        }
        (session.end(), foreign)
    }
}
