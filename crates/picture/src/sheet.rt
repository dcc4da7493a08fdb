// A map and the calls on it, as a text gives them.
ghost use Rattle.std.specs.Prelude.{◌≡◌, ◌⊎◌, true, false, Err, OnOk, IfErr};
ghost use Rattle.picture.specs.Rows.{ReadsRow};
ghost use Rattle.picture.specs.declared.sheet.SheetError.TheVariants.{Memory};

use boards::maps::MapKind;
use runs::calls::Order;
use std::alloc::{AllocError, AllocFailed, Global};
use std::fmt;
use thiserror::Error;

// The kind and the sides of a map.
#[derive(Clone, Copy, PartialEq, Eq, Debug)]
pub struct Shape {
    pub kind: MapKind,
    pub rows: u16,
    pub columns: u16,
}

impl Shape {
    // How many layers there are on the board of such a map.
    pub fn layers(self) -> u16 {
        match self.kind {
            MapKind::FieldMap => 2,
            MapKind::EscapeMap => 1,
        }
    }
}

impl fmt::Display for Shape {
    fn fmt<W: fmt::Write>(&self, f: &mut fmt::Formatter<W>) -> fmt::Result {
        let kind = match self.kind {
            MapKind::FieldMap => "field",
            MapKind::EscapeMap => "escape",
        };
        write!(f, "{kind} {} x {}", self.rows, self.columns)
    }
}

#[derive(Debug, Drop)]
pub struct Sheet {
    pub shape: Shape,
    pub bytes: Vec<u8>,
    pub orders: Vec<Order>,
}

#[derive(Clone, Copy, PartialEq, Eq, Debug, Error)]
pub enum SheetError {
    #[error("line 1: expected 'field R C' or 'escape R C', with R rows and C columns")]
    Header,
    #[error("line {line}: expected {columns} digits, one for each column")]
    Row { line: usize, columns: u16 },
    #[error("line {line}: expected 'place', 'lift', 'bar' or 'clear', and the number of a cell")]
    Order { line: usize },
    #[error("out of memory")]
    Memory,
}

impl From<AllocError> for SheetError {
    ghost from_gives = { λ _ e. e ≡ Memory };

    fn from(_error: AllocError) -> SheetError {
        SheetError::Memory
    }
}

impl<T: Drop> From<AllocFailed<T>> for SheetError {
    ghost from_gives = { λ _ e. e ≡ Memory };

    fn from(_error: AllocFailed<T>) -> SheetError {
        SheetError::Memory
    }
}

// The map in the text, its header and the digits of its rows, and then the calls.
pub fn read_sheet(heap: Global, text: &str) -> Result<Sheet, SheetError> {
    let mut lines = text.lines();
    let shape = lines
        .next()
        .and_then(read_header)
        .ok_or(SheetError::Header)?;
    let mut bytes = Vec::new(heap);
    let mut orders = Vec::new(heap);
    // A loop, since a line goes into one list or the other.
    for (i, text) in lines.enumerate() {
        let line = i.saturating_add(2);
        if i < shape.rows as usize {
            read_row(&mut bytes, text.as_bytes(), line, shape.columns)?;
        } else {
            orders.push(read_order(text).ok_or(SheetError::Order { line })?)?;
        }
    }
    Ok(Sheet {
        shape,
        bytes,
        orders,
    })
}

fn read_order(text: &str) -> Option<Order> {
    let (word, number) = text.split_once(' ')?;
    Some(Order {
        kind: word.parse().ok()?,
        cell: number.parse().ok()?,
    })
}

fn read_header(line: &str) -> Option<Shape> {
    let mut words = line.split(' ');
    let shape = Shape {
        kind: read_kind(words.next()?)?,
        rows: words.next()?.parse().ok()?,
        columns: words.next()?.parse().ok()?,
    };
    words.next().is_none().then_some(shape)
}

// The kinds of map are another crate's, which reads no words, so this is no FromStr.
fn read_kind(word: &str) -> Option<MapKind> {
    match word {
        "field" => Some(MapKind::FieldMap),
        "escape" => Some(MapKind::EscapeMap),
        _ => None,
    }
}

// Adds the digits of a row, if it has one for each column.
fn read_row(bytes: &mut Vec<u8>, row: &[u8], line: usize, columns: u16) -> Result<(), SheetError>
    ensures ok { OnOk result (ReadsRow columns row.now bytes.old.items bytes.new.items true) }
    ensures err { result ≡ Err (SheetError.Row line columns) →
        ReadsRow columns row.now bytes.old.items bytes.new.items false }
    ensures which { IfErr result (λ e. (e ≡ Memory) ⊎ (e ≡ SheetError.Row line columns)) }
{
    if row.len() != columns as usize || !row.iter().all(|byte| byte.is_ascii_digit()) {
        return Err(SheetError::Row { line, columns });
    }
    for byte in row {
        bytes.push(*byte - b'0')?;
    }
    Ok(())
}
