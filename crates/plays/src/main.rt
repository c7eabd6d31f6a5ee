// Two sessions played at once, on an image and on an outline: rebuilt at different moments, they answer alike.
#![tactic(auto)]

ghost use Rattle.std.specs.Prelude.{◌≡◌, true};
ghost use Rattle.runs.specs.Session.{is_open};
ghost use Rattle.sessions.specs.Plays.{Left};
ghost use Rattle.sessions.specs.View.{view};

use patterns::{Element, Pattern, Row};
use refusals::Refusal;
use sessions::call::{Answer, Call, Hand, Note};
use sessions::play::play_both;
use sessions::receipt::Receipt;
use sessions::session::Session;
use std::alloc::Global;
use std::io;
use trees::ChangeableTree;
use trees::image::Image;
use trees::outline::{Outline, Record};

// The image of a tree of ten nodes.
// Kept in each program that uses it: a crate for one constant would be no plainer.
const IMAGE: [u8; 60] =
    *b"\x3c\x00\x00\x00\x01\x00\x0c\x00\x00\x00\x02\x00\x06\x00\x00\x00\x04\x00\x06\x00\x00\x00\x05\x00\x24\x00\x00\x00\x03\x00\x0c\x00\x00\x00\x02\x00\x06\x00\x00\x00\x06\x00\x06\x00\x00\x00\x07\x00\x0c\x00\x00\x00\x02\x00\x06\x00\x00\x00\x08\x00";

// The outline of the same tree, but for the last label.
const OUTLINE: [Record; 10] = [
    Record { depth: 0, label: 1 },
    Record { depth: 1, label: 2 },
    Record { depth: 2, label: 4 },
    Record { depth: 1, label: 5 },
    Record { depth: 1, label: 3 },
    Record { depth: 2, label: 2 },
    Record { depth: 3, label: 6 },
    Record { depth: 2, label: 7 },
    Record { depth: 2, label: 2 },
    Record {
        depth: 3,
        label: 10,
    },
];

// A variable, a lexeme, and the same variable again.
fn twice() -> Option<Pattern> {
    let variable = Element::Variable {
        number: 0,
        constructor: None,
    };
    let mut elements = [variable; 64];
    elements[1] = Element::Lexeme(7);
    Pattern::from_row(Row { elements, count: 3 })
}

// Prints what is noted of a call.
// Not by the refusal's own `Display`: what this program prints names no cause.
fn tell(rt: &impl Print, note: &Note) -> io::Result<()> {
    match note {
        None => println!(rt; "no receipt"),
        Some(Ok(answer)) => tell_answer(rt, answer),
        Some(Err(refusal)) => {
            let (number, layer, byte, steps) = refusal.numbers();
            println!(rt; "refused {number} (layer {layer}, byte {byte}, steps {steps})")
        }
    }
}

// Prints what a call answered.
fn tell_answer(rt: &impl Print, answer: &Answer) -> io::Result<()> {
    match answer {
        Answer::Done => println!(rt; "done"),
        Answer::Opened(name) => println!(rt; "receipt of session {name}"),
        Answer::Number(number) => println!(rt; "number {number}"),
        Answer::Steps(steps) => println!(rt; "{steps} steps"),
        Answer::Wrote(count) => println!(rt; "{count} found"),
        Answer::Found(place, pattern) => println!(rt; "first ({place}, {pattern})"),
        Answer::Bound(found) => {
            let steps = found.steps;
            println!(rt; "bound in {steps} steps")
        }
    }
}

fn tell_all(rt: &impl Print, what: &str, notes: &[Note]) -> io::Result<()> {
    println!(rt; "{what}:")?;
    for note in notes {
        tell(rt, note)?;
    }
    Ok(())
}

// Plays calls on two sessions, ends them, and gives back what is left of the foreign receipts.
fn played<T: ChangeableTree + Drop, U: ChangeableTree + Drop>(
    heap: Global,
    pattern: Pattern,
    tree: T,
    foreign: Receipt,
    notes: &mut [Note],
    other_tree: U,
    other_foreign: Receipt,
    other_notes: &mut [Note],
) -> (Option<Receipt>, Option<Receipt>)
    ensures first { Left result.0 foreign.session }
    ensures second { Left result.1 other_foreign.session }
{
    let mut out = [(0, 0); 4];
    let mut other_out = [(0, 0); 4];
    match play_both(
        heap,
        tree,
        7,
        foreign,
        &mut out,
        &first_calls(pattern),
        notes,
        other_tree,
        8,
        other_foreign,
        &mut other_out,
        &second_calls(pattern),
        other_notes,
    ) {
        Ok((player, other)) => {
            let (_, left) = player.end();
            let (_, other_left) = other.end();
            (left, other_left)
        }
        Err(((_, foreign), (_, other_foreign), _)) => { (Some(foreign), Some(other_foreign)) }
    }
}

// A change of the last label.
const CHANGE: Call = Call::Change {
    hand: Hand::Own,
    place: 9,
    label: 6,
};

// The same place with a foreign receipt.
const FOREIGN_CHANGE: Call = Call::Change {
    hand: Hand::Foreign,
    place: 9,
    label: 4,
};

// The bindings of the first pattern at the place where it is found.
const BINDINGS: Call = Call::Bindings {
    pattern: 0,
    place: 4,
};

// Looks for a pattern before and after a change.
fn first_calls(pattern: Pattern) -> [Call; 10] {
    [
        Call::Add(pattern),
        Call::Rebuild,
        Call::FirstFinding,
        Call::Open,
        CHANGE,
        Call::Commit(Hand::Foreign),
        Call::Commit(Hand::Own),
        Call::Rebuild,
        Call::Findings,
        BINDINGS,
    ]
}

// Comes to the same tree and pattern by other calls, and rebuilds once.
fn second_calls(pattern: Pattern) -> [Call; 10] {
    [
        Call::Open,
        CHANGE,
        FOREIGN_CHANGE,
        Call::Commit(Hand::Own),
        Call::Open,
        Call::Abandon(Hand::Own),
        Call::Add(pattern),
        Call::Rebuild,
        Call::Findings,
        BINDINGS,
    ]
}

// Abandons the click of a receipt that was lent, if it came back.
fn take_back<T: ChangeableTree>(session: &mut Session<T>, left: Option<Receipt>)
    requires left { Left left (view T.Meant.meaning session.old).name }
    requires open { is_open (view T.Meant.meaning session.old) ≡ true }
{
    if let Some(receipt) = left {
        session.abandon(receipt).unwrap();
    }
}

// Lends receipts of two more sessions to the plays, and takes them back.
fn lent<T: ChangeableTree + Drop, U: ChangeableTree + Drop, V: ChangeableTree, W: ChangeableTree>(
    heap: Global,
    pattern: Pattern,
    tree: T,
    lender: &mut Session<V>,
    notes: &mut [Note],
    other_tree: U,
    other_lender: &mut Session<W>,
    other_notes: &mut [Note],
) -> Result<(), Refusal> {
    let receipt = lender.open()?;
    match other_lender.open() {
        Ok(other_receipt) => {
            let (left, other_left) = played(
                heap,
                pattern,
                tree,
                receipt,
                notes,
                other_tree,
                other_receipt,
                other_notes,
            );
            take_back(lender, left);
            take_back(other_lender, other_left);
            Ok(())
        }
        Err(refused) => {
            take_back(lender, Some(receipt));
            Err(refused)
        }
    }
}

// Plays on two trees, with sessions over two more that lend their receipts, and prints the notes.
fn tell_plays<T, U, V, W>(
    rt: &(impl Print + Alloc<A = Global>),
    tree: T,
    other_tree: U,
    lending: V,
    other_lending: W,
) -> io::Result<()>
where
    T: ChangeableTree + Drop,
    U: ChangeableTree + Drop,
    V: ChangeableTree + Drop,
    W: ChangeableTree + Drop,
{
    let mut notes = [None; 10];
    let mut other_notes = [None; 10];
    let Some(pattern) = twice() else {
        return println!(rt; "no pattern");
    };
    let Ok(mut lender) = Session::new(rt.alloc(), lending, 1) else {
        return println!(rt; "no memory");
    };
    let Ok(mut other_lender) = Session::new(rt.alloc(), other_lending, 2) else {
        return println!(rt; "no memory");
    };
    let _ = lent(
        rt.alloc(),
        pattern,
        tree,
        &mut lender,
        &mut notes,
        other_tree,
        &mut other_lender,
        &mut other_notes,
    );
    tell_all(rt, "on the image", &notes)?;
    tell_all(rt, "on the outline", &other_notes)
}

fn main(rt: HostRuntime) -> anyhow::Result<()> {
    let mut bytes = IMAGE;
    let mut records = OUTLINE;
    let mut lending = [Record { depth: 0, label: 1 }];
    let mut other_lending = [Record { depth: 0, label: 1 }];
    tell_plays(
        &rt,
        Image::new(&mut bytes),
        Outline::new(&mut records),
        Outline::new(&mut lending),
        Outline::new(&mut other_lending),
    )?;
    Ok(())
}
