// What the first pass over a script finds.
use crate::model::Header;

// The header, where the proposals and the records begin, and how many records and slips there are.
#[derive(Clone, Copy)]
pub(crate) struct Survey {
    pub head: Header,
    pub start: usize,
    pub rest: usize,
    pub records: usize,
    pub slips: usize,
}
