// The interface of every book: it means its number of places and a list of standing orders.
ghost use Rattle.std.specs.Prelude.{◌≡◌, ℕ, List, [], length, Some, nat_lt};
ghost use Rattle.rules.specs.Refusals.{passed, Answers};
ghost use Rattle.books.specs.Lists.{front_of, find, shares_at, add_refusal, take_refusal, added, taken, removed, Kept};
ghost use Rattle.books.specs.declared.standing.Standing.{Standing};

use crate::standing::Standing;
use rules::refusal::Refusal;
use rules::side::Side;

pub trait Book {
    type Side: Side;

    // the standing orders, first priority first
    ghost orders: { Self → List Standing };

    ghost room: { Self → ℕ };

    fn empty(&mut self)
        ensures list { orders self.new ≡ [] }
        ensures places { room self.new ≡ room self.old };

    fn count(&self) -> usize
        ensures { result ≡ length (orders self.now) };

    fn places(&self) -> usize
        ensures { result ≡ room self.now };

    fn front(&self) -> Option<Standing>
        ensures { result ≡ front_of (orders self.now) };

    fn find(&self, number: u32) -> Option<Standing>
        ensures { result ≡ find number (orders self.now) };

    // The open shares of all orders at a price: beyond 32 bits in a full book.
    fn shares_at(&self, price: u32) -> u64
        ensures { result ≡ shares_at price (orders self.now) };

    // The checks have their bodies here, and are no functions beside the trait: a call of one from a book's own `add` would lead back to `add`.

    // Whether a place is free.
    fn has_room(&self) -> bool
        ensures { result ≡ nat_lt (length (orders self.now)) (room self.now) }
    {
        self.count() < self.places()
    }

    // What `add` checks.
    fn check_add(&self, order: Standing) -> Result<(), Refusal>
        ensures { result ≡ passed (add_refusal (room self.now) (orders self.now) order) }
    {
        if !order.is_sound() || self.find(order.number).is_some() {
            return Err(Refusal::BadOrder);
        }
        if !self.has_room() {
            return Err(Refusal::BookFull);
        }
        Ok(())
    }

    // What `take` checks: answers the front order, from which the shares can be taken.
    fn check_take(&self, shares: u32) -> Result<Standing, Refusal>
        ensures { Answers (take_refusal (orders self.now) shares) (λ order. front_of (orders self.now) ≡ Some order) (λ refusal error. error ≡ refusal) result }
    {
        let order = self.front().ok_or(Refusal::BadTake)?;
        if !order.gives(shares) {
            return Err(Refusal::BadTake);
        }
        Ok(order)
    }

    fn add(&mut self, order: Standing) -> Result<(), Refusal>
        ensures answer { result ≡ (added Self.Side.Side.rule (room self.old) (orders self.old) order).answer }
        ensures list { orders self.new ≡ (added Self.Side.Side.rule (room self.old) (orders self.old) order).list }
        ensures places { room self.new ≡ room self.old };

    // Takes shares from the front order.
    fn take(&mut self, shares: u32) -> Result<(), Refusal>
        ensures answer { result ≡ (taken (orders self.old) shares).answer }
        ensures list { orders self.new ≡ (taken (orders self.old) shares).list }
        ensures places { room self.new ≡ room self.old };

    // Answers the open shares of the order that goes.
    fn remove(&mut self, number: u32) -> Result<u32, Refusal>
        ensures answer { result ≡ (removed number (orders self.old)).answer }
        ensures list { orders self.new ≡ (removed number (orders self.old)).list }
        ensures places { room self.new ≡ room self.old };

    ghost kept: { (book : Self) → Kept (room book) (orders book) };
}
