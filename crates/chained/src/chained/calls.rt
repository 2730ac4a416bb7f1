// The calls of a chained book.
ghost use Rattle.std.specs.Prelude.{◌≡◌, ◌-◌, Bool, ◌==◌, min, [], length, drop};
ghost use Rattle.books.specs.Lists.{most_places};
ghost use Rattle.books.specs.declared.standing.Standing.{Standing};
ghost use Rattle.chained.specs.Laws.{held_kept};
ghost use Rattle.chained.specs.Records.{most_records, orders_in, room_in, found, before_found, Means};

use crate::chained::Chained;
use crate::chains::{Chains, Spot};
use crate::record::Record;
use books::book::Book;
use books::standing::Standing;
use rules::refusal::Refusal;
use rules::side::Side;
use std::marker::PhantomData;

// 4,096 places and the anchor
const MOST_RECORDS: usize = 4097;

// How many of the records that are lent serve the book.
fn serving(lent: usize) -> usize
    ensures { result ≡ min lent most_records }
{
    lent.min(MOST_RECORDS)
}

// What is done with a book while it has the records. A trait and no closure: of a closure `lend` would ask that it may be called.
pub trait Task<S: Side> {
    type Answer;

    fn run(self, book: &mut Chained<'_, S>) -> Self::Answer;
}

// Lends an empty book in the records to a task. Records after the 4,097th stay as they were, whatever the task does.
pub fn lend<S: Side, T: Task<S>>(records: &mut [Record], task: T) -> T::Answer
    ensures { drop most_records records.new ≡ drop most_records records.old }
{
    let end = serving(records.len());
    let mut book: Chained<S> = Chained::new(&mut records[0..end]);
    task.run(&mut book)
}

impl<'a, S: Side> Chained<'a, S> {
    // An empty book, whatever the records held.
    pub fn new(records: &'a mut [Record]) -> Chained<'a, S>
        ensures list { orders_in result.chains.records.now ≡ [] }
        ensures places { room_in result.chains.records.now ≡ min (length records.old - 1) most_places }
    {
        let end = serving(records.len());
        let mut chains = Chains {
            records: &mut records[0..end],
            count: 0,
        };
        chains.clear();
        Chained {
            chains,
            side: PhantomData,
        }
    }

    // The spot of the first order that passes, or behind the last order.
    fn seek<F: Fn(Standing) -> bool>(&self, passes: F) -> Spot
        requires { F.IsAlwaysCallable passes }
        ensures before { (meant : Standing → Bool) → Means (F.post passes) meant → result.before ≡ before_found meant self.now.chains.records.now }
        ensures here { (meant : Standing → Bool) → Means (F.post passes) meant → result.here ≡ found meant self.now.chains.records.now }
    {
        let mut before = 0;
        let mut here = self.chains.first();
        while here != 0 {
            let record = self.chains.at(here);
            if passes(record.order) {
                return Spot { before, here };
            }
            before = here;
            here = record.next;
        }
        Spot { before, here }
    }

    // The spot of the order with that number, or behind the last order.
    fn spot_of(&self, number: u32) -> Spot
        ensures before { result.before ≡ before_found (λ order. order.number == number) self.now.chains.records.now }
        ensures here { result.here ≡ found (λ order. order.number == number) self.now.chains.records.now }
    {
        self.seek(|order| order.number == number)
    }
}

impl<S: Side> Book for Chained<'_, S> {
    type Side = S;

    ghost orders = { λ b. orders_in b.chains.records.now };

    ghost room = { λ b. room_in b.chains.records.now };

    ghost kept = { λ b. held_kept b.chains.records.now b.chains.count (b.few, (b.counted, (b.apart, (b.whole, (b.sound, tt))))) };

    fn empty(&mut self) {
        self.chains.clear();
    }

    fn count(&self) -> usize {
        self.chains.count
    }

    fn places(&self) -> usize {
        self.chains.records.len().saturating_sub(1)
    }

    fn front(&self) -> Option<Standing> {
        self.chains.order_at(self.chains.first())
    }

    fn find(&self, number: u32) -> Option<Standing> {
        self.chains.order_at(self.spot_of(number).here)
    }

    // a walk of its own, since `seek` stops at an order: the links lead on, and no index is counted
    fn shares_at(&self, price: u32) -> u64 {
        let mut sum = 0;
        let mut here = self.chains.first();
        while here != 0 {
            let record = self.chains.at(here);
            if record.order.price == price {
                sum += u64::from(record.order.shares);
            }
            here = record.next;
        }
        sum
    }

    fn add(&mut self, order: Standing) -> Result<(), Refusal> {
        self.check_add(order)?;
        let spot = self.seek(|other| S::comes_first(order.price, other.price));
        self.chains.link(spot.before, order);
        Ok(())
    }

    fn take(&mut self, shares: u32) -> Result<(), Refusal> {
        let order = self.check_take(shares)?;
        let here = self.chains.first();
        if shares == order.shares {
            self.chains.unlink(Spot { before: 0, here });
        } else {
            self.chains.reduce(here, shares);
        }
        Ok(())
    }

    fn remove(&mut self, number: u32) -> Result<u32, Refusal> {
        let spot = self.spot_of(number);
        if spot.here == 0 {
            return Err(Refusal::NotStanding);
        }
        Ok(self.chains.unlink(spot).shares)
    }
}
