// Whole runs of calls, played on a session over a tree of any make.
ghost use Rattle.std.specs.Prelude.{◌≡◌, ℕ, suc, ◌<◌, ◌≤◌, min, [], length, IfOk, MatchResult, slice_index_or};
ghost use Rattle.runs.specs.Session.{making, refused as refused_by};
ghost use Rattle.runs.specs.Runs.{EveryRun, Played, PlayedBoth};
ghost use Rattle.sessions.specs.Plays.{Left, Noted, first_table, table_of, note_answer, playable, stands, made, noted};
ghost use Rattle.sessions.specs.View.{view, refusal_answer};

use crate::call::{Call, Hands, Note};
use crate::player::Player;
use crate::receipt::Receipt;
use crate::session::Session;
use refusals::Refusal;
use std::alloc::Global;
use trees::ChangeableTree;

/// Makes a session over a tree, and makes calls of it one after the other, with the receipts of its own clicks and a foreign
/// one; notes each answer, as far as there is room for notes.
// Kept as parameters, here and below: of a struct that lends `out` and `notes`, clauses name what they hold afterwards by nested pairs.
pub fn play<T: ChangeableTree>(
    heap: Global,
    tree: T,
    name: u32,
    foreign: Receipt,
    out: &mut [(usize, usize)],
    calls: &[Call],
    notes: &mut [Note],
) -> Result<(Session<T>, Hands), (T, Receipt, Refusal)>
    ensures played { MatchResult result (λ p. Played (T.Meant.meaning tree) name (made (making (T.Meant.meaning tree) name) (first_table foreign.session out.old) calls.now (min (length calls.now) (length notes.old))) (view T.Meant.meaning p.0)) (λ e. (e.0 ≡ tree) × (e.1 ≡ foreign) × (refusal_answer e.2 ≡ refused_by 27 6 0 0)) }
    ensures tables { IfOk result (λ p. table_of p.1 out.new ≡ (stands (making (T.Meant.meaning tree) name) (first_table foreign.session out.old) calls.now (min (length calls.now) (length notes.old))).table) }
    ensures answers { MatchResult result (λ _. (k : ℕ) → k < min (length calls.now) (length notes.old) → note_answer [] (slice_index_or notes.new k None) ≡ noted (stands (making (T.Meant.meaning tree) name) (first_table foreign.session out.old) calls.now (suc k)).answer) (λ _. (out.new ≡ out.old) × (notes.new ≡ notes.old)) }
    ensures rest { (k : ℕ) → min (length calls.now) (length notes.old) ≤ k → slice_index_or notes.new k None ≡ slice_index_or notes.old k None }
    ensures law { EveryRun }
{
    // A match, since tree and receipt go back with the refusal.
    match Session::new(heap, tree, name) {
        Ok(session) => {
            let mut player = Player::new(session, foreign);
            player.play_on(out, calls, notes);
            let Player { session, hands } = player;
            Ok((session, hands))
        }
        Err((tree, refused)) => Err((tree, foreign, refused)),
    }
}

/// Plays calls as `play` does, and gives a player that keeps the session together with its receipts.
pub fn play_to_player<T: ChangeableTree>(
    heap: Global,
    tree: T,
    name: u32,
    foreign: Receipt,
    out: &mut [(usize, usize)],
    calls: &[Call],
    notes: &mut [Note],
) -> Result<Player<T>, (T, Receipt, Refusal)>
    ensures played { MatchResult result (λ p. Played (T.Meant.meaning tree) name (made (making (T.Meant.meaning tree) name) (first_table foreign.session out.old) calls.now (playable calls.now notes.old)) (view T.Meant.meaning p.session)) (λ e. (e.0 ≡ tree) × (e.1 ≡ foreign) × (refusal_answer e.2 ≡ refused_by 27 6 0 0)) }
    ensures noted { MatchResult result (λ p. Noted (making (T.Meant.meaning tree) name) (first_table foreign.session out.old) calls.now notes.old notes.new (table_of p.hands out.new)) (λ _. (out.new ≡ out.old) × (notes.new ≡ notes.old)) }
    ensures foreign { IfOk result (λ p. Left p.hands.foreign foreign.session) }
    ensures law { EveryRun }
{
    let (session, hands) = play(heap, tree, name, foreign, out, calls, notes)?;
    Ok(Player { session, hands })
}

/// Makes two sessions over trees of any two makes, and plays calls on each as `play_to_player` does. Where there is no memory for both,
/// nothing is played, and the trees and the receipts come back.
pub fn play_both<T: ChangeableTree, U: ChangeableTree>(
    heap: Global,
    tree: T,
    name: u32,
    foreign: Receipt,
    out: &mut [(usize, usize)],
    calls: &[Call],
    notes: &mut [Note],
    other_tree: U,
    other_name: u32,
    other_foreign: Receipt,
    other_out: &mut [(usize, usize)],
    other_calls: &[Call],
    other_notes: &mut [Note],
) -> Result<(Player<T>, Player<U>), ((T, Receipt), (U, Receipt), Refusal)>
    ensures played { MatchResult result (λ p. PlayedBoth (T.Meant.meaning tree) name (made (making (T.Meant.meaning tree) name) (first_table foreign.session out.old) calls.now (playable calls.now notes.old)) (view T.Meant.meaning p.0.session) (U.Meant.meaning other_tree) other_name (made (making (U.Meant.meaning other_tree) other_name) (first_table other_foreign.session other_out.old) other_calls.now (playable other_calls.now other_notes.old)) (view U.Meant.meaning p.1.session)) (λ e. ((e.0.0 ≡ tree) × (e.0.1 ≡ foreign)) × ((e.1.0 ≡ other_tree) × (e.1.1 ≡ other_foreign)) × (refusal_answer e.2 ≡ refused_by 27 6 0 0)) }
    ensures noted { MatchResult result (λ p. Noted (making (T.Meant.meaning tree) name) (first_table foreign.session out.old) calls.now notes.old notes.new (table_of p.0.hands out.new)) (λ _. (out.new ≡ out.old) × (notes.new ≡ notes.old)) }
    ensures also { MatchResult result (λ p. Noted (making (U.Meant.meaning other_tree) other_name) (first_table other_foreign.session other_out.old) other_calls.now other_notes.old other_notes.new (table_of p.1.hands other_out.new)) (λ _. (other_out.new ≡ other_out.old) × (other_notes.new ≡ other_notes.old)) }
    ensures foreign { IfOk result (λ p. Left p.0.hands.foreign foreign.session × Left p.1.hands.foreign other_foreign.session) }
{
    // Matches, since trees and receipts go back with the refusal.
    let session = match Session::new(heap, tree, name) {
        Ok(session) => session,
        Err((tree, refused)) => {
            return Err(((tree, foreign), (other_tree, other_foreign), refused));
        }
    };
    let other = match Session::new(heap, other_tree, other_name) {
        Ok(other) => other,
        Err((other_tree, refused)) => {
            return Err((
                (session.end(), foreign),
                (other_tree, other_foreign),
                refused,
            ));
        }
    };
    let mut player = Player::new(session, foreign);
    player.play_on(out, calls, notes);
    let mut other = Player::new(other, other_foreign);
    other.play_on(other_out, other_calls, other_notes);
    Ok((player, other))
}
