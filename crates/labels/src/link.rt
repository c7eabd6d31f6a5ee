// The number of a record, or none, in two bytes.
ghost use Rattle.std.specs.Prelude.{◌≡◌, ◌<◌, Some};
ghost use Rattle.labels.specs.Index.{link_of};

/// The number of a record, or none.
// Kept apart from `Option<u16>`, which takes four bytes: the index has a link for each record and for each bucket.
#[derive(Clone, Copy)]
pub(crate) struct Link {
    /// The number plus 1, or 0 for none.
    above: u16,
}

impl Link {
    /// The link to no record.
    pub(crate) const NONE: Link = Link { above: 0 };

    /// The link to the record with a number.
    pub(crate) fn to(number: u16) -> Link
        requires { number < 65535 }
        ensures { result ≡ link_of (Some number) }
    {
        Link { above: number + 1 }
    }

    /// The number of the record, if there is one.
    pub(crate) fn number(self) -> Option<u16>
        ensures { link_of result ≡ self }
    {
        self.above.checked_sub(1)
    }
}
