// The next record's bounds, and a number of two bytes.
#![tactic(auto)]

ghost use Rattle.std.specs.Prelude.{◌≡◌, ◌+◌, ◌<◌, length};
ghost use Rattle.reader.specs.Records.{number, next_at};

// A sheet, and the place in it that reading has come to.
#[derive(Clone, Copy, Debug)]
pub struct Reader<'a> {
    pub sheet: &'a [u8],
    pub place: usize,
}

// A whole record: its payload stands from `from` up to `to`, where the next record begins. Its kind is the number that stands there: scripts,
// result sheets and bundles have kinds of their own.
#[derive(Clone, Copy, Debug, PartialEq, Eq)]
pub struct Bounds {
    pub kind: usize,
    pub from: usize,
    pub to: usize,
}

// The number in the two bytes at i, which are there.
pub fn number_at(bytes: &[u8], i: usize) -> usize
    requires { i + 1 < length bytes.now }
    ensures { (result ≡ number bytes.now i) × (result < 65536) }
{
    usize::from(u16::from_le_bytes([bytes[i], bytes[i + 1]]))
}

// The work, over a plain slice: the whole record that begins at a place, if one does.
pub fn bounds_at(sheet: &[u8], place: usize) -> Option<Bounds>
    ensures { result ≡ next_at sheet.now place }
{
    let left = sheet.len().checked_sub(place)?;
    let room = left.checked_sub(4)?;
    let size = number_at(sheet, place);
    if room < size {
        return None;
    }
    let from = place + 4;
    Some(Bounds {
        kind: number_at(sheet, place + 2),
        from,
        to: from + size,
    })
}

impl<'a> Reader<'a> {
    // A reader that has come to a place.
    pub fn open(sheet: &'a [u8], place: usize) -> Reader<'a>
        ensures { (result.sheet ≡ sheet.entry) × (result.place ≡ place) }
    {
        Reader { sheet, place }
    }

    // The whole record that begins where it has come to, if one does.
    pub fn next_bounds(self) -> Option<Bounds>
        ensures { result ≡ next_at self.entry.sheet.now self.entry.place }
    {
        bounds_at(self.sheet, self.place)
    }
}

// The same for callers that have a sheet and a place: no reader shows in their code.
pub fn next_record(sheet: &[u8], place: usize) -> Option<Bounds>
    ensures { result ≡ next_at sheet.now place }
{
    Reader::open(sheet, place).next_bounds()
}
