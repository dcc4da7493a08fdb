// The memory that the calls of a job work on.
use records::record::Record;

#[derive(Drop)]
pub struct Desk {
    pub drawing: Vec<Record>,
    pub work: Vec<u16>,
    pub report: Vec<u16>,
}
