// The journal: a table of clicks, and a table of the changes that belong to them.
mod notes;

ghost use Rattle.std.specs.Prelude.{◌≡◌, ◌<◌, ◌≤◌, true, vec_len, vec_capacity, sum_by};
ghost use Rattle.sessions.specs.declared.entry.Click.{Click as Entry};
ghost use Rattle.sessions.specs.Held.{all_labels};

use crate::entry::{Click, Replaced};
pub(crate) use notes::{CHANGES, CLICKS};

// Kept as clauses of three methods: that a click stands holds only between `begin` and `forget`, so it is no fact of the type.
/// The clicks that stand, the oldest first, and what their changes replaced; the last click may be open.
/// The room for 64 clicks and 256 changes is taken when the journal is made.
#[derive(Drop)]
pub(crate) struct Journal {
    clicks: Vec<Click>,
    changes: Vec<Replaced>,
    // Kept as a flag beside the clicks: the entry of the open click stands in the table like the others, where it is lent and its
    // count raised.
    pending: bool,
    ghost click_room: { 64 ≤ vec_capacity clicks },
    ghost change_room: { 256 ≤ vec_capacity changes },
    ghost counted: { sum_by (λ (c : Entry). c.changes) clicks.items ≡ vec_len changes },
    ghost begun: { (pending ≡ true → 0 < vec_len clicks) },
    ghost labels: { all_labels changes.items ≡ true },
}
