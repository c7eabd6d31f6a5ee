// What a player asks of a session, with which receipt, and what it notes.
use crate::receipt::Receipt;
use matching::Match;
use patterns::Pattern;
use refusals::Refusal;

/// Which receipt a call hands over: that of the session's click, or a foreign one.
#[derive(Clone, Copy, PartialEq, Eq, Debug)]
pub enum Hand {
    Own,
    Foreign,
}

/// A call. Findings are written over the player's slice.
#[derive(Clone, Copy)]
pub enum Call {
    Open,
    Change {
        hand: Hand,
        place: usize,
        label: u16,
    },
    Commit(Hand),
    Abandon(Hand),
    Undo,
    Settle,
    Add(Pattern),
    Rebuild,
    Findings,
    FirstFinding,
    Bindings {
        pattern: usize,
        place: usize,
    },
}

/// What a call answers if it is not refused.
#[derive(Clone, Copy, PartialEq, Eq, Debug)]
pub enum Answer {
    Done,
    Opened(u32),
    Number(usize),
    Steps(u32),
    Wrote(usize),
    Found(usize, usize),
    Bound(Match),
}

/// What is noted of a call: its answer or its refusal, or nothing if there was no receipt to hand over.
pub type Note = Option<Result<Answer, Refusal>>;

/// The receipts that a player holds.
pub struct Hands {
    pub own: Option<Receipt>,
    pub foreign: Option<Receipt>,
}
