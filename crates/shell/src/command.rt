// The commands of a script, as a line has them.
use crate::failure::Failure;
use crate::operands::{read_half, read_hex, read_number, read_records, split_word};
use std::alloc::Global;
use trees::outline::Record;

/// A line that is a command, with its operands.
#[derive(Drop)]
pub(crate) enum Command<'a> {
    Book(Vec<u8>),
    Label(u16, &'a [u8]),
    CheckBook,
    Name(u16),
    Image(Vec<u8>),
    Outline(Vec<Record>),
    Tree(&'a [u8]),
    TreeHex(Vec<u8>),
    CheckImage(Vec<u8>),
    CheckOutline(Vec<Record>),
    Show,
    Write,
    Room(u32),
    Pattern(&'a [u8]),
    PatternHex(Vec<u8>),
    Match(u32, &'a [u8]),
    Find(&'a [u8]),
}

impl<'a> Command<'a> {
    /// The command of a line, if its words fit one.
    pub(crate) fn read(heap: Global, line: &'a [u8]) -> Result<Command<'a>, Failure> {
        let (word, behind) = split_word(line);
        book_command(heap, word, behind.unwrap_or(b""))
    }
}

// Kept as parameters, here and below: these functions are one `match` on the word, cut in three.
fn book_command<'a>(heap: Global, word: &[u8], rest: &'a [u8]) -> Result<Command<'a>, Failure> {
    match word {
        b"book" => Ok(Command::Book(read_hex(heap, rest)?)),
        b"label" => read_label(rest),
        b"check-book" => alone(rest, Command::CheckBook),
        b"name" => Ok(Command::Name(read_half(rest)?)),
        _ => tree_command(heap, word, rest),
    }
}

fn tree_command<'a>(heap: Global, word: &[u8], rest: &'a [u8]) -> Result<Command<'a>, Failure> {
    match word {
        b"image" => Ok(Command::Image(read_hex(heap, rest)?)),
        b"outline" => Ok(Command::Outline(read_records(heap, rest)?)),
        b"tree" => Ok(Command::Tree(rest)),
        b"tree-hex" => Ok(Command::TreeHex(read_hex(heap, rest)?)),
        b"check-image" => Ok(Command::CheckImage(read_hex(heap, rest)?)),
        b"check-outline" => Ok(Command::CheckOutline(read_records(heap, rest)?)),
        b"show" => alone(rest, Command::Show),
        b"write" => alone(rest, Command::Write),
        b"room" => Ok(Command::Room(read_number(rest)?)),
        _ => search_command(heap, word, rest),
    }
}

fn search_command<'a>(heap: Global, word: &[u8], rest: &'a [u8]) -> Result<Command<'a>, Failure> {
    match word {
        b"pattern" => Ok(Command::Pattern(rest)),
        b"pattern-hex" => Ok(Command::PatternHex(read_hex(heap, rest)?)),
        b"match" => read_match(rest),
        b"find" => Ok(Command::Find(rest)),
        _ => Err(Failure::NotUnderstood),
    }
}

// A command with no operand.
fn alone<'a>(rest: &[u8], command: Command<'a>) -> Result<Command<'a>, Failure> {
    if rest.is_empty() {
        Ok(command)
    } else {
        Err(Failure::NotUnderstood)
    }
}

fn read_label(rest: &[u8]) -> Result<Command<'_>, Failure> {
    let (number, name) = split_word(rest);
    let name = name.ok_or(Failure::NotUnderstood)?;
    Ok(Command::Label(read_half(number)?, name))
}

// A place and a text, which may be empty.
fn read_match(rest: &[u8]) -> Result<Command<'_>, Failure> {
    let (number, text) = split_word(rest);
    Ok(Command::Match(read_number(number)?, text.unwrap_or(b"")))
}
