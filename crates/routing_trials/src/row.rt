// A board as a line of the table gives it, and the calls to be made on it.
//
// `field 1 3 112 4:place 0,bar 5` is a field of one row and three columns with the map 1 1 2 and cell 4 kept out, on which cell 0
// is placed and then cell 5 barred.
ghost use Rattle.std.specs.Prelude.{◌≡◌, ◌-◌, ◌<◌, ◌≤◌, Some, None};

use runs::calls::Order;
use std::alloc::{AllocError, AllocFailed, Global};
use std::str::FromStr;

// Which board the calls are made on.
#[derive(Clone, Copy, PartialEq, Eq, Debug)]
pub enum Kind {
    Field,
    Escape,
    // The ring of six cells, whatever the map.
    Ring,
}

impl FromStr for Kind {
    type Err = RowError;

    fn from_str(word: &str) -> Result<Kind, RowError> {
        match word {
            "field" => Ok(Kind::Field),
            "escape" => Ok(Kind::Escape),
            "ring" => Ok(Kind::Ring),
            _ => Err(RowError::Form),
        }
    }
}

#[derive(Debug, Drop)]
pub struct Row {
    pub kind: Kind,
    pub rows: u16,
    pub columns: u16,
    pub bytes: Vec<u8>,
    pub kept: Vec<u16>,
    pub orders: Vec<Order>,
}

#[derive(Clone, Copy, PartialEq, Eq, Debug)]
pub enum RowError {
    // The line is no row of the table.
    Form,
    Memory,
}

impl From<AllocError> for RowError {
    fn from(_error: AllocError) -> RowError {
        RowError::Memory
    }
}

impl<T: Drop> From<AllocFailed<T>> for RowError {
    fn from(_error: AllocFailed<T>) -> RowError {
        RowError::Memory
    }
}

pub fn read_row(heap: Global, line: &str) -> Result<Row, RowError> {
    let (board, orders) = line.split_once(':').ok_or(RowError::Form)?;
    let mut words = board.split_ascii_whitespace();
    Ok(Row {
        kind: read(words.next())?,
        rows: read(words.next())?,
        columns: read(words.next())?,
        bytes: read_map(heap, words.next().unwrap_or_default())?,
        kept: words.map(|word| read(Some(word))).try_collect(heap)?,
        orders: orders.split(',').map(read_order).try_collect(heap)?,
    })
}

// What a word stands for, if there is a word and it stands for anything.
fn read<T: FromStr>(word: Option<&str>) -> Result<T, RowError>
where
    T::Err: Drop,
{
    word.and_then(|word| word.parse().ok())
        .ok_or(RowError::Form)
}

fn read_order(text: &str) -> Result<Order, RowError> {
    let mut words = text.splitn(2, ' ');
    Ok(Order {
        kind: read(words.next())?,
        cell: read(words.next())?,
    })
}

fn read_map(heap: Global, digits: &str) -> Result<Vec<u8>, RowError> {
    digits
        .bytes()
        .map(|byte| digit(byte).ok_or(RowError::Form))
        .try_collect(heap)
}

// The value of a decimal digit. By hand, since what `to_digit` of a char answers is wider than a byte.
fn digit(byte: u8) -> Option<u8>
    ensures digit { 48 ≤ byte → byte ≤ 57 → result ≡ Some (byte - 48) }
    ensures below { byte < 48 → result ≡ None }
    ensures above { 57 < byte → result ≡ None }
{
    match byte {
        b'0'..=b'9' => Some(byte - b'0'),
        _ => None,
    }
}
