// The index of a book's records, which finds a name without comparing it with all others.
ghost use Rattle.std.specs.Prelude.{◌≡◌, ◌+◌, ◌*◌, ◌^◌, ◌<◌, ◌≤◌, ◌∷◌, true, false, drop, Some, Ok, Err, MatchOption, MatchResult, length, None};
ghost use Rattle.std.specs.Option.{option_map};
ghost use Rattle.std.proofs.Props.{props};
ghost use Rattle.records.specs.Heads.{length_of};
ghost use Rattle.labels.specs.Entries.{Rising, above_last, label_of, name_of, bad_length, bad_label, bad_name, first_entry, fault, counted, entries, read_book};
ghost use Rattle.labels.specs.Laws.{Judged};
ghost use Rattle.labels.specs.Index.{entry_of, known, Whole, Heads, Links, Noted};

use crate::entry::read_entry;
use crate::link::Link;
use crate::names::{Key, is_good_name};
use refusals::{Cause, Layer, Refusal};

const LARGEST: u16 = 32767;

const MOST: usize = 4096;

/// A record that was read: where it starts in the book, its label, and the record before it in its bucket.
#[derive(Clone, Copy)]
pub(crate) struct Record {
    pub(crate) start: u32,
    pub(crate) label: u16,
    pub(crate) before: Link,
}

/// The records that were read, and for each bucket its last one.
// Kept as arrays of fixed size with a count: the index of a book takes no heap. A record holds where it starts, and not the lent name, so that it takes 8 bytes of the stack and not 24.
#[derive(Clone, Copy)]
pub(crate) struct Tables {
    records: [Record; MOST],
    last: [Link; MOST],
    count: usize,
}

/// The lent bytes of a book, and the tables of the records that were read in them.
// Kept as clauses of the methods: each that takes `&mut self` says that the bytes stay, which no fact of the type can.
#[derive(Clone, Copy)]
pub(crate) struct Index<'a> {
    bytes: &'a [u8],
    tables: Tables,
    ghost full: { length tables.records ≡ 4096 },
    ghost few: { tables.count ≤ 4096 },
    ghost whole: { Whole bytes.now tables } by { Prim.hlevel props },
    ghost heads: { Heads bytes.now tables } by { Prim.hlevel props },
    ghost links: { Links bytes.now tables } by { Prim.hlevel props },
}

impl Tables {
    /// Notes the record that starts at a byte, with its label and the key of its name, as the last, in its bucket too.
    fn note(&mut self, start: usize, label: u16, key: Key)
        requires room { self.old.count < 4096 }
        requires near { start < 2 ^ 32 }
        ensures { Noted self.old self.new start label key.entry.name.now }
    {
        // Kept as casts, here and below: they are proved to lose nothing, since at most 4,095 records, of at most 70 bytes each, stand before the last.
        self.records[self.count] = Record {
            start: start as u32,
            label,
            before: self.last[key.bucket],
        };
        self.last[key.bucket] = Link::to(self.count as u16);
        self.count += 1;
    }
}

impl<'a> Index<'a> {
    /// An index of no records.
    pub(crate) fn new(bytes: &'a [u8]) -> Index<'a>
        ensures none { result.tables.count ≡ 0 }
        ensures bytes { result.bytes.now ≡ bytes.now }
    {
        let none = Record {
            start: 0,
            label: 0,
            before: Link::NONE,
        };
        Index {
            bytes,
            tables: Tables {
                records: [none; MOST],
                last: [Link::NONE; MOST],
                count: 0,
            },
        }
    }

    /// How many records were read.
    pub(crate) fn count(&self) -> usize
        ensures { result ≡ length (known self.now.bytes.now self.now.tables) }
    {
        self.tables.count
    }

    /// The name of a record, which is that part of the book.
    fn name_in(&self, found: Record) -> &'a [u8]
        requires { bad_length (drop found.start self.now.bytes.now) ≡ false }
        ensures { result.now ≡ (entry_of self.now.bytes.now found).name }
    {
        read_entry(&self.bytes[found.start as usize..])
            .unwrap()
            .name
    }

    /// The label that has this name.
    pub(crate) fn label(&self, name: &[u8]) -> Option<u16>
        ensures { result ≡ label_of (known self.now.bytes.now self.now.tables) name.now }
    {
        self.find(Key::of(name))
    }

    /// The label that has the name of this key.
    fn find(&self, key: Key) -> Option<u16>
        ensures { result ≡ label_of (known self.now.bytes.now self.now.tables) key.entry.name.now }
    {
        let mut next = self.tables.last[key.bucket].number();
        while let Some(number) = next {
            let record = self.tables.records[usize::from(number)];
            if self.name_in(record) == key.name {
                return Some(record.label);
            }
            next = record.before.number();
        }
        None
    }

    /// The name of a label, where the labels rise.
    pub(crate) fn name(&self, label: u16) -> Option<&'a [u8]>
        requires { Rising (known self.now.bytes.now self.now.tables) }
        ensures { option_map (λ x. x.now) result ≡ name_of (known self.now.bytes.now self.now.tables) label }
    {
        let records = &self.tables.records[..self.tables.count];
        let number = records
            .binary_search_by_key(&label, |record| record.label)
            .ok()?;
        Some(self.name_in(records[number]))
    }

    /// Whether a label is above the last one.
    fn is_above(&self, label: u16) -> bool
        ensures { result ≡ above_last (known self.now.bytes.now self.now.tables) label }
    {
        let records = &self.tables.records[..self.tables.count];
        records.last().is_none_or(|last| last.label < label)
    }

    /// Whether a label cannot follow those that are known.
    fn is_bad_label(&self, label: u16) -> bool
        ensures { result ≡ bad_label (known self.now.bytes.now self.now.tables) label }
    {
        label > LARGEST || !self.is_above(label)
    }

    /// The key of a name, unless the name cannot follow those that are known. What is no name has no key, so its bytes are not hashed.
    fn free_key<'n>(&self, name: &'n [u8]) -> Option<Key<'n>>
        ensures { MatchOption result (bad_name (known self.now.bytes.now self.now.tables) name.now ≡ true) (λ key. (bad_name (known self.now.bytes.now self.now.tables) name.now ≡ false) × (key.name.now ≡ name.now)) }
    {
        if !is_good_name(name) {
            return None;
        }
        let key = Key::of(name);
        if self.find(key).is_some() {
            return None;
        }
        Some(key)
    }

    /// Reads the record at a byte, behind those that are known, and answers where the next starts.
    fn read_record(&mut self, at: usize) -> Result<usize, Cause>
        requires within { at ≤ length self.old.bytes.now }
        requires near { at ≤ 70 * length (known self.old.bytes.now self.old.tables) }
        ensures same { self.new.bytes.now ≡ self.old.bytes.now }
        ensures read { MatchResult result (λ next. (fault (known self.old.bytes.now self.old.tables) (drop at self.old.bytes.now) ≡ None) × (known self.new.bytes.now self.new.tables ≡ first_entry (drop at self.old.bytes.now) ∷ known self.old.bytes.now self.old.tables) × (next ≡ at + length_of (drop at self.old.bytes.now))) (λ c. fault (known self.old.bytes.now self.old.tables) (drop at self.old.bytes.now) ≡ Some c) }
    {
        let entry = read_entry(&self.bytes[at..]).ok_or(Cause::BadLength)?;
        if self.is_bad_label(entry.label) {
            return Err(Cause::BadLabel);
        }
        let key = self.free_key(entry.name).ok_or(Cause::BadName)?;
        if self.tables.count >= MOST {
            return Err(Cause::TooMany);
        }
        self.tables.note(at, entry.label, key);
        Ok(at + 6 + entry.name.len())
    }

    /// Reads all records of the book, behind none, up to its first fault.
    fn read_all(&mut self) -> Result<(), Refusal>
        requires { self.old.tables.count ≡ 0 }
        ensures same { self.new.bytes.now ≡ self.old.bytes.now }
        ensures read { MatchResult result (λ _. read_book self.old.bytes.now ≡ Ok (known self.new.bytes.now self.new.tables)) (λ f. read_book self.old.bytes.now ≡ Err f) }
    {
        let mut at = 0;
        // Kept as `while`: each record says where the next one starts, so there is nothing to go over.
        while at < self.bytes.len() {
            at = self
                .read_record(at)
                .map_err(|cause| Refusal::at(cause, Layer::Book, at))?;
        }
        Ok(())
    }

    /// Forgets all records.
    fn clear(&mut self)
        ensures none { self.new.tables.count ≡ 0 }
        ensures same { self.new.bytes.now ≡ self.old.bytes.now }
    {
        self.tables.last = [Link::NONE; MOST];
        self.tables.count = 0;
    }

    /// Reads the book, behind no record, and answers the number of its records or its first fault; where it has one, no record is known.
    // Kept as a method on an index that the caller has made: handing the index out takes its tables on the stack once more for each hand.
    pub(crate) fn read(&mut self) -> Result<usize, Refusal>
        requires { self.old.tables.count ≡ 0 }
        ensures same { self.new.bytes.now ≡ self.old.bytes.now }
        ensures read { known self.new.bytes.now self.new.tables ≡ entries self.old.bytes.now }
        ensures check { result ≡ counted (read_book self.old.bytes.now) }
        ensures law { Judged self.old.bytes.now result }
    {
        // A match, since a fault clears the index before it is told.
        match self.read_all() {
            Ok(()) => Ok(self.count()),
            Err(refusal) => {
                self.clear();
                Err(refusal)
            }
        }
    }
}
