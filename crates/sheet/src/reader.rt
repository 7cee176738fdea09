// The reader of records: it keeps the lent file and its position.
ghost use Rattle.std.specs.Prelude.{◌≡◌};
ghost use Rattle.sheet.specs.Record.{record_at};

use crate::record::Record;

// A file, and the place in it where the next record begins.
#[derive(Clone, Copy)]
pub struct Records<'a> {
    pub file: &'a [u8],
    pub at: usize,
}

impl<'a> Records<'a> {
    // A reader at the front of a file.
    pub fn open(file: &'a [u8]) -> Records<'a>
        ensures { (result.file ≡ file.entry) × (result.at ≡ 0) }
    {
        Records { file, at: 0 }
    }

    // The record that begins at the reader's place.
    pub fn next(self) -> Option<Record>
        ensures { result ≡ record_at self.entry.file.now self.entry.at }
    {
        crate::record::read(self.file, self.at)
    }

    // The same reader at another place.
    pub fn moved(self, at: usize) -> Records<'a>
        ensures { (result.file ≡ self.entry.file) × (result.at ≡ at) }
    {
        Records { at, ..self }
    }
}

// The record that begins at a place of a file: every record of a sheet or a plan is read so.
pub fn record_at(s: &[u8], at: usize) -> Option<Record>
    ensures { result ≡ record_at s.now at }
{
    Records::open(s).moved(at).next()
}
