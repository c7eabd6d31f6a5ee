// What a script works on, and which command is whose.
mod books;
mod designs;
mod searches;
mod store;

use crate::command::Command;
use crate::failure::Failure;
use std::alloc::Global;
use std::io;
use std::io::Write;
use store::Store;
use trees::image::check_image;
use trees::outline::check_outline;

/// The book and the tree of a script, the room for the next command that writes, and where answers are written.
#[derive(Drop)]
pub(crate) struct Desk<'a, W> {
    heap: Global,
    out: &'a mut W,
    book: Vec<u8>,
    store: Option<Store>,
    room: Option<u32>,
}

impl<'a, W: Write> Desk<'a, W> {
    pub(crate) fn new(heap: Global, out: &'a mut W) -> Desk<'a, W> {
        Desk {
            heap,
            out,
            book: Vec::new(heap),
            store: None,
            room: None,
        }
    }

    /// Writes a line and its answer, and says whether it was understood.
    // Kept as a `bool`, as `run`.
    pub(crate) fn obey(&mut self, line: &[u8]) -> io::Result<bool> {
        self.out.write_all(b"> ")?;
        self.out.write_all(line)?;
        self.out.write_all(b"\n")?;
        if line.starts_with(b"#") {
            return Ok(true);
        }
        match self.answer(line) {
            Ok(()) => Ok(true),
            Err(Failure::Output(error)) => Err(error),
            Err(Failure::Memory(error)) => Err(error.into()),
            Err(failure) => {
                writeln!(self.out, "{failure}")?;
                Ok(!matches!(failure, Failure::NotUnderstood))
            }
        }
    }

    fn answer(&mut self, line: &[u8]) -> Result<(), Failure> {
        match Command::read(self.heap, line)? {
            Command::Book(bytes) => self.set_book(bytes)?,
            Command::Label(label, name) => self.add_label(label, name)?,
            Command::CheckBook => self.check_book()?,
            Command::Name(label) => self.print_name(label)?,
            Command::Image(bytes) => self.set_store(Store::Image(bytes))?,
            Command::Outline(records) => self.set_store(Store::Outline(records))?,
            Command::Tree(text) => self.set_tree(text)?,
            Command::TreeHex(text) => self.set_tree(text.as_slice())?,
            Command::CheckImage(bytes) => {
                let places = check_image(bytes.as_slice())?;
                self.print_count(places, "places")?;
            }
            Command::CheckOutline(records) => {
                let places = check_outline(records.as_slice())?;
                self.print_count(places, "places")?;
            }
            Command::Show => self.show()?,
            Command::Write => self.write()?,
            Command::Room(room) => {
                self.room = Some(room);
                writeln!(self.out, "ok room {room}")?;
            }
            Command::Pattern(text) => self.print_pattern(text)?,
            Command::PatternHex(text) => self.print_pattern(text.as_slice())?,
            Command::Match(place, text) => self.match_place(place as usize, text)?,
            Command::Find(text) => self.find(text)?,
        }
        Ok(())
    }

    // Writes how many there are of something that was checked.
    pub(crate) fn print_count(&mut self, count: usize, what: &str) -> io::Result<()> {
        writeln!(self.out, "ok {count} {what}")
    }
}
