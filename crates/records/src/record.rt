// What a drawing holds for each cell.
ghost use Rattle.std.specs.Prelude.{◌≡◌, true, Some, slice_set};
ghost use Rattle.records.specs.Records.{before_of, after_of, is_net, is_first, is_last, is_barred, record_at};

// A cell is free, barred or on a net; on a net it names the cell before it or none, and the cell after it or none.
#[derive(Clone, Copy, PartialEq, Eq, Debug)]
pub enum Record {
    Free,
    Barred,
    Net {
        before: Option<u16>,
        after: Option<u16>,
    },
}

impl Record {
    // A net cell by the cells that it names.
    fn net(before: Option<u16>, after: Option<u16>) -> Record
        ensures { result ≡ Record.Net before after }
    {
        Record::Net { before, after }
    }

    // The first cell of a net that goes on to another cell.
    pub fn first(after: u16) -> Record
        ensures begins { is_first result ≡ true }
        ensures goes_on { after_of result ≡ Some after }
    {
        Record::net(None, Some(after))
    }

    // A cell of a net between two others.
    pub fn between(before: u16, after: u16) -> Record
        ensures comes_from { before_of result ≡ Some before }
        ensures goes_on { after_of result ≡ Some after }
    {
        Record::net(Some(before), Some(after))
    }

    // The last cell of a net that comes from another cell.
    pub fn last(before: u16) -> Record
        ensures comes_from { before_of result ≡ Some before }
        ensures ends { is_last result ≡ true }
    {
        Record::net(Some(before), None)
    }

    // The only cell of a net.
    pub fn alone() -> Record
        ensures begins { is_first result ≡ true }
        ensures ends { is_last result ≡ true }
    {
        Record::net(None, None)
    }

    // The cell before this one on its net.
    pub fn before(&self) -> Option<u16>
        ensures { result ≡ before_of self.now }
    {
        match *self {
            Record::Net { before, .. } => before,
            _ => None,
        }
    }

    // The cell after this one on its net.
    pub fn after(&self) -> Option<u16>
        ensures { result ≡ after_of self.now }
    {
        match *self {
            Record::Net { after, .. } => after,
            _ => None,
        }
    }

    // Whether the cell is on a net.
    pub fn is_net(&self) -> bool
        ensures { result ≡ is_net self.now }
    {
        matches!(self, Record::Net { .. })
    }

    // Whether the cell is the first of a net.
    pub fn is_first(&self) -> bool
        ensures { result ≡ is_first self.now }
    {
        matches!(self, Record::Net { before: None, .. })
    }

    // Whether the cell is the last of a net.
    pub fn is_last(&self) -> bool
        ensures { result ≡ is_last self.now }
    {
        matches!(self, Record::Net { after: None, .. })
    }

    // Whether the cell is barred.
    pub fn is_barred(&self) -> bool
        ensures { result ≡ is_barred self.now }
    {
        matches!(self, Record::Barred)
    }
}

// The record of a cell; a number past the last record is that of a free cell.
pub fn record_at(drawing: &[Record], cell: u16) -> Record
    ensures { result ≡ record_at drawing.now cell }
{
    drawing.get(cell as usize).copied().unwrap_or(Record::Free)
}

// Writes the record of a cell; past the last record nothing is written.
pub fn put(drawing: &mut [Record], cell: u16, record: Record)
    ensures { drawing.new ≡ slice_set drawing.old cell «record» }
{
    // By index: a slice's `get_mut` promises nothing of the slice after a write through what it lends.
    if (cell as usize) < drawing.len() {
        drawing[cell as usize] = record;
    }
}
