// The links of the records, with no claim that they are well-formed: whoever holds the chains keeps that.
// Links are indices, since the records are the caller's: a next index leads from record to record, and zero ends the chain.
ghost use Rattle.std.specs.Prelude.{◌≡◌, ◌+◌, ◌<◌, ◌≤◌, ◌≢◌, ◌==◌, cond, length, Some, None};
ghost use Rattle.books.specs.Lists.{most_places, reduced};
ghost use Rattle.chained.specs.Records.{most_records, at, next_of, free_of, order_of, linked, unlinked, with_order, Cleared};

use crate::record::Record;
use books::standing::Standing;

#[derive(Drop)]
pub(crate) struct Chains<'a> {
    pub(crate) records: &'a mut [Record],
    // the orders that stand
    pub(crate) count: usize,
}

// A record in a chain, and the record before it: 0 is the anchor before the first, and no record after the last,
// since zero ends a chain.
#[derive(Clone, Copy)]
pub(crate) struct Spot {
    pub(crate) before: u16,
    pub(crate) here: u16,
}

impl Chains<'_> {
    // The record of the first order, or 0.
    pub(crate) fn first(&self) -> u16
        ensures { result ≡ next_of self.now.records.now 0 }
    {
        self.records.first().map_or(0, |anchor| anchor.next)
    }

    pub(crate) fn at(&self, here: u16) -> Record
        requires { here < length self.now.records.now }
        ensures { result ≡ at self.now.records.now here }
    {
        self.records[here as usize]
    }

    // The order in a record, and none where the chain has ended.
    pub(crate) fn order_at(&self, here: u16) -> Option<Standing>
        requires { here ≢ 0 → here < length self.now.records.now }
        ensures { result ≡ cond (here == 0) None (Some (order_of self.now.records.now here)) }
    {
        (here != 0).then(|| self.records[here as usize].order)
    }

    // Puts the order into the first free record, behind the one before it.
    pub(crate) fn link(&mut self, before: u16, order: Standing)
        requires before_in_bounds { before < length self.old.records.now }
        requires records_in_bounds { free_of self.old.records.now 0 < length self.old.records.now }
        requires count_lt_most_places { self.old.count < most_places }
        ensures records { self.new.records.now ≡ linked self.old.records.now before (free_of self.old.records.now 0) order }
        ensures count { self.new.count ≡ self.old.count + 1 }
    {
        let here = self.records[0].free;
        let next = self.records[before as usize].next;
        let free = self.records[here as usize].free;
        self.records[0].free = free;
        self.records[here as usize] = Record {
            order,
            next,
            free: 0,
        };
        self.records[before as usize].next = here;
        self.count += 1;
    }

    // Hands the record at the spot back to the free ones, and answers the order that it held.
    pub(crate) fn unlink(&mut self, spot: Spot) -> Standing
        requires before_in_bounds { spot.before < length self.old.records.now }
        requires here_in_bounds { spot.here < length self.old.records.now }
        requires count_nonzero { 0 < self.old.count }
        ensures order { result ≡ order_of self.old.records.now spot.here }
        ensures records { self.new.records.now ≡ unlinked self.old.records.now spot.before spot.here }
        ensures count { self.new.count + 1 ≡ self.old.count }
    {
        let order = self.records[spot.here as usize].order;
        let next = self.records[spot.here as usize].next;
        let free = self.records[0].free;
        self.records[spot.before as usize].next = next;
        self.records[spot.here as usize].free = free;
        self.records[0].free = spot.here;
        self.count -= 1;
        order
    }

    // Takes shares from an order in place.
    pub(crate) fn reduce(&mut self, here: u16, shares: u32)
        requires here_in_bounds { here < length self.old.records.now }
        requires shares_bound { shares ≤ (order_of self.old.records.now here).shares }
        ensures records { self.new.records.now ≡ with_order self.old.records.now here (reduced (order_of self.old.records.now here) shares) }
        ensures count { self.new.count ≡ self.old.count }
    {
        self.records[here as usize].order.shares -= shares;
    }

    // Leaves no order, and every record but the anchor free.
    pub(crate) fn clear(&mut self)
        requires { length self.old.records.now ≤ most_records }
        ensures records { Cleared (length self.old.records.now) self.new.records.now }
        ensures count { self.new.count ≡ 0 }
    {
        let end = self.records.len();
        for (k, record) in self.records.iter_mut().enumerate() {
            record.free = (k + 1) as u16;
        }
        if end > 0 {
            self.records[end - 1].free = 0;
            self.records[0].next = 0;
        }
        self.count = 0;
    }
}
