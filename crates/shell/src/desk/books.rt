// What the commands of the label book do.
use crate::desk::Desk;
use crate::failure::Failure;
use records::Head;
use std::alloc::AllocError;
use std::io;
use std::io::Write;

impl<W: Write> Desk<'_, W> {
    pub(crate) fn set_book(&mut self, bytes: Vec<u8>) -> io::Result<()> {
        self.book = bytes;
        self.print_book()
    }

    pub(crate) fn add_label(&mut self, label: u16, name: &[u8]) -> io::Result<()> {
        self.push_record(label, name)?;
        self.print_book()
    }

    // Appends a record, unchecked; its length counts the whole record.
    fn push_record(&mut self, label: u16, name: &[u8]) -> Result<(), AllocError> {
        // The mask says that bits are meant to be lost, of a name that no record can count.
        let length = (name.len().saturating_add(6) & 0xffff_ffff) as u32;
        let head = Head {
            length,
            kind: label,
        };
        self.book.extend_from_slice(&head.bytes())?;
        self.book.extend_from_slice(name)
    }

    fn print_book(&mut self) -> io::Result<()> {
        let count = self.book.len();
        writeln!(self.out, "ok book of {count} bytes")
    }

    // Apart from the function that answers a line, which would have the index of a book in its frame at each call: so are all that open one.
    #[inline(never)]
    pub(crate) fn check_book(&mut self) -> Result<(), Failure> {
        let records = labels::check(self.book.as_slice())?;
        self.print_count(records, "records")?;
        Ok(())
    }

    #[inline(never)]
    pub(crate) fn print_name(&mut self, label: u16) -> Result<(), Failure> {
        let name = labels::name_of(self.book.as_slice(), label)?;
        self.out.write_all(b"ok ")?;
        self.out.write_all(name)?;
        self.out.write_all(b"\n")?;
        Ok(())
    }
}
