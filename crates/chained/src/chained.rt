// The book in lent records: the chains with what they must keep.
ghost use Rattle.std.specs.Prelude.{◌≡◌, ◌≤◌, true, length};
ghost use Rattle.books.specs.Arranging.{all_sound};
ghost use Rattle.chained.specs.Records.{most_records, orders_in, Apart, Whole};

use crate::chains::Chains;
use rules::side::Side;
use std::marker::PhantomData;

mod calls;

pub use self::calls::{Task, lend};

// Nothing here says that the orders stand in the side's order: adding finds the place on any list.
#[derive(Drop)]
pub struct Chained<'a, S: Side> {
    chains: Chains<'a>,
    side: PhantomData<S>,
    ghost few: { length chains.records.now ≤ most_records },
    ghost counted: { chains.count ≡ length (orders_in chains.records.now) },
    // no record stands twice in the chains
    ghost apart: { Apart chains.records.now },
    // no record is lost from them
    ghost whole: { Whole chains.records.now },
    ghost sound: { all_sound (orders_in chains.records.now) ≡ true },
}
