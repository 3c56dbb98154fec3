// Why bytes are not read, and the number that a call for C answers then; that of bytes that are not well formed also says that a
// record cannot be written.
ghost use Rattle.std.specs.Prelude.{◌≡◌};
ghost use Rattle.wire_fields.specs.Unread.{unread_number};

// Why bytes are not read.
#[derive(Clone, Copy, Debug, PartialEq, Eq)]
pub enum Unread {
    // They are not well formed, lack what is read or are out of limits.
    Malformed,
    // They are a BaseCommand of another type.
    OtherType,
}

impl From<Unread> for u64 {
    ghost from_gives = { λ why number. number ≡ unread_number why };

    fn from(why: Unread) -> u64 {
        match why {
            Unread::Malformed => 16,
            Unread::OtherType => 17,
        }
    }
}
