// Every truncation and single-byte change of an image, through the check and the make, and one change of labels on both makes.
#![tactic(auto)]

use refusals::Refusal;
use std::io;
use trees::Tree;
use trees::any::same_tree;
use trees::image::{Image, check_image};
use trees::outline::{Outline, Record};
use trees::write::write_image;

mod exchange;

use exchange::{exchange, root_of};

/// The image of a tree of ten nodes.
// Kept in each program that uses it: a crate for one constant would be no plainer.
const IMAGE: [u8; 60] =
    *b"\x3c\x00\x00\x00\x01\x00\x0c\x00\x00\x00\x02\x00\x06\x00\x00\x00\x04\x00\x06\x00\x00\x00\x05\x00\x24\x00\x00\x00\x03\x00\x0c\x00\x00\x00\x02\x00\x06\x00\x00\x00\x06\x00\x06\x00\x00\x00\x07\x00\x0c\x00\x00\x00\x02\x00\x06\x00\x00\x00\x08\x00";

/// Prints a refusal.
// Not by its own `Display`: what this program prints names no cause, and parts all by commas.
fn refuse(rt: &impl Print, refusal: Refusal) -> io::Result<()> {
    let (number, layer, byte, steps) = refusal.numbers();
    print!(rt; "refused {number}, layer {layer}, byte {byte}, steps {steps}")
}

/// Prints what the check answers, and the tree that is made.
fn outcome(rt: &impl Print, bytes: &mut [u8]) -> io::Result<()> {
    match check_image(bytes) {
        Ok(places) => print!(rt; "ok {places} places")?,
        Err(refusal) => refuse(rt, refusal)?,
    }
    let root = root_of(bytes);
    let tree = Image::new(bytes);
    let places = tree.places();
    println!(rt; ", made {places} places under {root}")
}

/// The image cut off at each length.
fn cuts(rt: &impl Print) -> io::Result<()> {
    for n in 0..=IMAGE.len() {
        let mut bytes = IMAGE;
        print!(rt; "cut to {n}: ")?;
        outcome(rt, &mut bytes[..n])?;
    }
    Ok(())
}

/// The image with one byte changed to each value; those that are answered alike as the one before are passed over.
fn changes(rt: &impl Print) -> io::Result<()> {
    for at in 0..IMAGE.len() {
        let mut last = None;
        for value in 0..=255u8 {
            let mut bytes = IMAGE;
            bytes[at] = value;
            let now = Some(check_image(&bytes));
            if now != last {
                print!(rt; "byte {at} from {value}: ")?;
                outcome(rt, &mut bytes)?;
            }
            last = now;
        }
    }
    Ok(())
}

/// The same change of labels on the outline and on the image of one tree.
fn both(rt: &impl Print) -> io::Result<()> {
    let mut bytes = IMAGE;
    let mut records = [
        Record { depth: 0, label: 1 },
        Record { depth: 1, label: 2 },
        Record { depth: 2, label: 4 },
        Record { depth: 1, label: 5 },
        Record { depth: 1, label: 3 },
        Record { depth: 2, label: 2 },
        Record { depth: 3, label: 6 },
        Record { depth: 2, label: 7 },
        Record { depth: 2, label: 2 },
        Record { depth: 3, label: 8 },
    ];
    let mut image = Image::new(&mut bytes);
    let mut outline = Outline::new(&mut records);
    let before = same_tree(&image, &outline);
    let first = exchange(&mut image, 2, 9).is_ok();
    let between = same_tree(&image, &outline);
    let second = exchange(&mut outline, 2, 9).is_ok();
    let after = same_tree(&image, &outline);
    let outside = exchange(&mut outline, 2, 10).is_ok();
    println!(rt;
        "same {before}, exchanged {first}, same {between}, exchanged {second}, same {after}, outside {outside}"
    )?;
    let mut out = [0u8; 62];
    let written = write_image(&outline, &mut out);
    match written {
        Ok(n) => println!(rt; "{n} bytes {out:?}"),
        Err(refusal) => refuse(rt, refusal),
    }
}

fn main(rt: HostRuntime) -> io::Result<()> {
    cuts(&rt)?;
    changes(&rt)?;
    both(&rt)
}
