// Up to 32 orders by arrival, oldest first. Who is first by priority is worked out when asked.
ghost use Rattle.std.specs.Prelude.{◌≡◌, ◌<◌, ◌≤◌, [], ◌∷◌, ◌++◌, length, get_or, ◌==◌, slice_index_or, slice_set, position, sum_by, filter, nat_eq, if◌then◌else◌};
ghost use Rattle.std.specs.List.{remove};
ghost use Rattle.books.specs.Lists.{reduced};
ghost use Rattle.books.specs.Packing.{blank, moved_down, Front};

use crate::standing::Standing;
use rules::side::Side;
use std::marker::Model;

pub(crate) const PLACES: usize = 32;

// An array and a count: the packed book has 32 places of its own, and no heap.
#[derive(Drop)]
pub(crate) struct Arrivals {
    spots: [Standing; PLACES],
    count: usize,
}

// Clauses see the orders that are held, oldest first.
impl Model for Arrivals {
    ghost use Rattle.std.specs.Prelude.{◌≤◌, List, take};
    ghost use Rattle.books.specs.declared.standing.Standing.{Standing};

    ghost Value = { List Standing };

    ghost view = { λ a. take a.count a.spots };

    ghost invariant = { λ a. a.count ≤ 32 };
}

impl Arrivals {
    pub(crate) fn new() -> Arrivals
        ensures { result ≡ [] }
    {
        Arrivals {
            spots: [Standing::BLANK; PLACES],
            count: 0,
        }
    }

    pub(crate) fn clear(&mut self)
        ensures { self.new ≡ [] }
    {
        self.count = 0;
    }

    // The spots that are in use.
    fn held(&self) -> &[Standing]
        ensures orders { result.now ≡ self.now }
        ensures size { length self.now ≤ 32 }
    {
        &self.spots[..self.count]
    }

    pub(crate) fn count(&self) -> usize
        ensures { result ≡ length self.now }
    {
        self.held().len()
    }

    pub(crate) fn at(&self, index: usize) -> Standing
        requires { index < length self.now }
        ensures { result ≡ slice_index_or self.now index blank }
    {
        self.held()[index]
    }

    pub(crate) fn index_of(&self, number: u32) -> Option<usize>
        ensures { result ≡ position (λ order. order.number == number) self.now }
    {
        self.held().iter().position(|order| order.number == number)
    }

    // Of equal prices the earlier arrival stays best.
    pub(crate) fn front_index<S: Side>(&self) -> Option<usize>
        ensures { Front S.Side.rule self.now result }
    {
        let held = self.held();
        let mut best: Option<usize> = None;
        for (i, order) in held.iter().enumerate() {
            if best.is_none_or(|first| S::comes_first(order.price, held[first].price)) {
                best = Some(i);
            }
        }
        best
    }

    pub(crate) fn shares_at(&self, price: u32) -> u64
        ensures { result ≡ sum_by (λ order. order.shares) (filter (λ order. order.price == price) self.now) }
    {
        self.held()
            .iter()
            .map(|order| u64::from(order.shares_if(price)))
            .sum()
    }

    pub(crate) fn push(&mut self, order: Standing)
        requires { length self.old < 32 }
        ensures { self.new ≡ self.old ++ order ∷ [] }
    {
        self.spots[self.count] = order;
        self.count += 1;
    }

    pub(crate) fn reduce(&mut self, index: usize, shares: u32)
        requires within { index < length self.old }
        requires left { shares ≤ (get_or self.old index blank).shares }
        ensures { self.new ≡ slice_set self.old index (reduced (slice_index_or self.old index blank) shares) }
    {
        self.spots[..self.count][index].shares -= shares;
    }

    // Later orders move down by one, and only the last spot is cleared.
    pub(crate) fn close_up(&mut self, index: usize) -> Standing
        requires { index < length self.old }
        ensures answer { result ≡ slice_index_or self.old index blank }
        ensures left { self.new ≡ remove self.old index }
    {
        let gone = self.at(index);
        close(&mut self.spots, index, self.count);
        self.count -= 1;
        let cleared = self.spots[self.count] == Standing::BLANK;
        prove!(cleared);
        gone
    }
}

// Closes up the spots in use, so many, after the order at the index has left: the later ones move down, and the last one is
// cleared. Of the bare spots, which clauses on the arrivals do not see.
fn close(spots: &mut [Standing], index: usize, end: usize)
    requires within { end ≤ length spots.old }
    requires used { index < end }
    ensures { spots.new ≡ moved_down spots.old index end }
{
    spots.copy_within(index + 1..end, index);
    spots[end - 1] = Standing::BLANK;
}

impl Standing {
    // No filter in place of it: that would branch on each price.
    fn shares_if(&self, price: u32) -> u32
        ensures { result ≡ (if nat_eq self.now.price price then self.now.shares else 0) }
    {
        if self.price == price { self.shares } else { 0 }
    }
}
