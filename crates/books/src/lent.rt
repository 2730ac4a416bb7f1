// A book that is lent, so that what takes books takes borrowed ones too.
use crate::book::Book;
use crate::standing::Standing;
use rules::refusal::Refusal;

#[derive(Drop)]
pub struct Lent<'a, B>(pub &'a mut B);

impl<B: Book> Book for Lent<'_, B> {
    type Side = B::Side;

    ghost orders = { λ b. B.Book.orders b.0.now };

    ghost room = { λ b. B.Book.room b.0.now };

    ghost kept = { λ b. B.Book.kept b.0.now };

    fn empty(&mut self) {
        self.0.empty();
    }

    fn count(&self) -> usize {
        self.0.count()
    }

    fn places(&self) -> usize {
        self.0.places()
    }

    fn front(&self) -> Option<Standing> {
        self.0.front()
    }

    fn find(&self, number: u32) -> Option<Standing> {
        self.0.find(number)
    }

    fn shares_at(&self, price: u32) -> u64 {
        self.0.shares_at(price)
    }

    fn add(&mut self, order: Standing) -> Result<(), Refusal> {
        self.0.add(order)
    }

    fn take(&mut self, shares: u32) -> Result<(), Refusal> {
        self.0.take(shares)
    }

    fn remove(&mut self, number: u32) -> Result<u32, Refusal> {
        self.0.remove(number)
    }
}
