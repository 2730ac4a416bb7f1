// The packed book: 32 places of its own, and no memory but those.
ghost use Rattle.std.specs.Prelude.{◌≡◌, ◌≤◌, true, [], length};
ghost use Rattle.books.specs.Arranging.{all_sound, Distinct, arranged};
ghost use Rattle.std.proofs.Common.{arith};
ghost use Rattle.books.specs.Laws.{length_arranged, sound_arrange};

use crate::book::Book;
use crate::standing::Standing;
use rules::refusal::Refusal;
use rules::side::Side;
use std::marker::PhantomData;

mod arrivals;

use self::arrivals::{Arrivals, PLACES};

#[derive(Drop)]
pub struct Packed<S> {
    arrivals: Arrivals,
    side: PhantomData<S>,
    ghost within: { length arrivals ≤ 32 },
    ghost sound: { all_sound arrivals ≡ true },
    ghost distinct: { Distinct arrivals },
}

impl<S: Side> Packed<S> {
    pub fn new() -> Packed<S>
        ensures { arranged S.Side.rule result.arrivals ≡ [] }
    {
        Packed {
            arrivals: Arrivals::new(),
            side: PhantomData,
        }
    }
}

impl<S: Side> Book for Packed<S> {
    type Side = S;

    ghost orders = { λ book. arranged S.Side.rule book.arrivals };

    ghost room = { λ _. 32 };

    ghost kept = { λ b. (
      omega arith,
      omega (arith, length_arranged S.Side.rule b.arrivals, b.within),
      sound_arrange S.Side.rule b.arrivals [] b.sound tt,
    ) };

    fn empty(&mut self) {
        self.arrivals.clear();
    }

    fn count(&self) -> usize {
        self.arrivals.count()
    }

    fn places(&self) -> usize {
        PLACES
    }

    fn front(&self) -> Option<Standing> {
        self.arrivals
            .front_index::<S>()
            .map(|index| self.arrivals.at(index))
    }

    fn find(&self, number: u32) -> Option<Standing> {
        self.arrivals
            .index_of(number)
            .map(|index| self.arrivals.at(index))
    }

    fn shares_at(&self, price: u32) -> u64 {
        self.arrivals.shares_at(price)
    }

    fn add(&mut self, order: Standing) -> Result<(), Refusal> {
        self.check_add(order)?;
        self.arrivals.push(order);
        Ok(())
    }

    fn take(&mut self, shares: u32) -> Result<(), Refusal> {
        // not by `check_take`, which looks for the front order too: one look through the arrivals
        let index = self.arrivals.front_index::<S>().ok_or(Refusal::BadTake)?;
        let order = self.arrivals.at(index);
        if !order.gives(shares) {
            return Err(Refusal::BadTake);
        }
        if shares == order.shares {
            self.arrivals.close_up(index);
        } else {
            self.arrivals.reduce(index, shares);
        }
        Ok(())
    }

    fn remove(&mut self, number: u32) -> Result<u32, Refusal> {
        let index = self.arrivals.index_of(number).ok_or(Refusal::NotStanding)?;
        Ok(self.arrivals.close_up(index).shares)
    }
}
