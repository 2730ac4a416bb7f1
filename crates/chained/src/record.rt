// The records that a caller lends to a chained book.
use books::standing::Standing;

// A place for one order, with the two links that may lead on from it. In the anchor, record 0, the links lead to the first of each chain.
#[derive(Clone, Copy)]
pub struct Record {
    pub(crate) order: Standing,
    // the record of the order behind this one, or 0
    pub(crate) next: u16,
    // the free record after this one, or 0
    pub(crate) free: u16,
}

impl Record {
    // What fills the records before they are lent. No `Default` beside it: a blank record has one name.
    pub const BLANK: Record = Record {
        order: Standing::BLANK,
        next: 0,
        free: 0,
    };
}
