// A program that uses receipts rightly: each click that is opened is committed or abandoned, once.
#![tactic(auto)]

use refusals::Refusal;
use sessions::session::Session;
use std::alloc::Global;
use std::io;
use trees::image::Image;
use trees::outline::{Outline, Record};
use trees::{ChangeableTree, Tree};

// The image of a tree of ten nodes.
// Kept in each program that uses it: a crate for one constant would be no plainer.
const IMAGE: [u8; 60] =
    *b"\x3c\x00\x00\x00\x01\x00\x0c\x00\x00\x00\x02\x00\x06\x00\x00\x00\x04\x00\x06\x00\x00\x00\x05\x00\x24\x00\x00\x00\x03\x00\x0c\x00\x00\x00\x02\x00\x06\x00\x00\x00\x06\x00\x06\x00\x00\x00\x07\x00\x0c\x00\x00\x00\x02\x00\x06\x00\x00\x00\x08\x00";

// A click that puts one label at a place; where that is refused, the click is abandoned.
fn click<T: ChangeableTree>(
    session: &mut Session<T>,
    place: usize,
    label: u16,
) -> Result<(), Refusal> {
    let receipt = session.open()?;
    match session.change(&receipt, place, label) {
        Ok(()) => {
            session.commit(receipt).unwrap();
            Ok(())
        }
        Err(refused) => {
            session.abandon(receipt).unwrap();
            Err(refused)
        }
    }
}

// Hands the receipt of another session's click in, which is refused, and abandons that click with the receipt that came back.
fn borrowed<T: ChangeableTree, U: ChangeableTree>(
    session: &mut Session<T>,
    other: &mut Session<U>,
) -> Result<(), Refusal> {
    let receipt = other.open()?;
    match session.commit(receipt) {
        Ok(()) => Ok(()),
        Err((receipt, refused)) => {
            other.abandon(receipt).unwrap();
            Err(refused)
        }
    }
}

// Prints what came of a call.
// Not by the refusal's own `Display`: what this program prints names no cause.
fn tell(rt: &impl Print, what: &str, answer: Result<(), Refusal>) -> io::Result<()> {
    match answer {
        Ok(()) => println!(rt; "{what}: ok"),
        Err(refusal) => {
            let (number, layer, byte, steps) = refusal.numbers();
            println!(rt; "{what}: refused {number} (layer {layer}, byte {byte}, steps {steps})")
        }
    }
}

// Prints the label at the place that is clicked on.
fn tell_label<T: Tree>(rt: &impl Print, tree: &T) -> io::Result<()> {
    match tree.label(9) {
        Ok(label) => println!(rt; "the label at place 9: {label}"),
        Err(refusal) => tell(rt, "the label at place 9", Err(refusal)),
    }
}

// Clicks on two sessions, over trees of any two makes.
fn hour<T: ChangeableTree + Drop, U: ChangeableTree + Drop>(
    rt: &(impl Print + Alloc<A = Global>),
    tree: T,
    other_tree: U,
) -> io::Result<()> {
    let Ok(mut session) = Session::new(rt.alloc(), tree, 7) else {
        return println!(rt; "no memory");
    };
    let Ok(mut other) = Session::new(rt.alloc(), other_tree, 8) else {
        return println!(rt; "no memory");
    };
    tell(rt, "a click on place 9", click(&mut session, 9, 6))?;
    tell(rt, "a click outside the tree", click(&mut session, 10, 6))?;
    tell(rt, "a click with no label", click(&mut session, 9, 32768))?;
    tell(
        rt,
        "a commit with another's receipt",
        borrowed(&mut session, &mut other),
    )?;
    tell_label(rt, session.tree())?;
    tell(rt, "an undo", session.undo())?;
    tell(rt, "one more", session.undo())?;
    tell_label(rt, session.tree())
}

fn main(rt: HostRuntime) -> anyhow::Result<()> {
    let mut bytes = IMAGE;
    let mut records = [Record { depth: 0, label: 1 }];
    hour(&rt, Image::new(&mut bytes), Outline::new(&mut records))?;
    Ok(())
}
