// A book in its plainest form, which shares no code with the others: a list that each call scans.
ghost use Rattle.std.specs.Prelude.{◌≤◌, IfOk, vec_len};

use crate::operation::{Answer, Operation};
use books::standing::Standing;
use rules::refusal::Refusal;
use rules::terms::SideName;
use std::alloc::{AllocError, Global};

#[derive(Drop)]
pub struct Model {
    side: SideName,
    places: usize,
    // first priority first
    orders: Vec<Standing>,
}

impl Model {
    pub fn new(heap: Global, side: SideName, places: usize) -> Model {
        Model {
            side,
            places,
            orders: Vec::new(heap),
        }
    }

    pub fn count(&self) -> usize {
        self.orders.len()
    }

    pub fn places(&self) -> usize {
        self.places
    }

    pub fn front(&self) -> Option<Standing> {
        self.orders.first().copied()
    }

    pub fn find(&self, number: u32) -> Option<Standing> {
        self.orders
            .iter()
            .find(|order| order.number == number)
            .copied()
    }

    pub fn shares_at(&self, price: u32) -> u64 {
        self.orders
            .iter()
            .filter(|order| order.price == price)
            .map(|order| u64::from(order.shares))
            .fold(0, u64::wrapping_add)
    }

    pub fn apply(&mut self, operation: Operation) -> Result<Answer, AllocError> {
        match operation {
            Operation::Add(order) => self.add(order),
            Operation::Take(shares) => Ok(self.take(shares)),
            Operation::Remove(number) => Ok(self.remove(number)),
            Operation::Empty => {
                self.orders.clear();
                Ok(Ok(None))
            }
        }
    }

    // Before the first order with a worse price.
    fn behind_better(&self, price: u32) -> usize
        ensures { result ≤ vec_len self.now.orders }
    {
        self.orders
            .iter()
            .position(|standing| match self.side {
                SideName::Bid => standing.price < price,
                SideName::Ask => standing.price > price,
            })
            .unwrap_or(self.orders.len())
    }

    // Where a new order goes, or why it is refused.
    fn place_for(&self, order: Standing) -> Result<usize, Refusal>
        ensures { IfOk result (λ place. place ≤ vec_len self.now.orders) }
    {
        if order.number == 0 || order.price == 0 || order.shares == 0 || order.shares > 10_000_000 {
            return Err(Refusal::BadOrder);
        }
        if self.find(order.number).is_some() {
            return Err(Refusal::BadOrder);
        }
        if self.orders.len() >= self.places {
            return Err(Refusal::BookFull);
        }
        Ok(self.behind_better(order.price))
    }

    fn add(&mut self, order: Standing) -> Result<Answer, AllocError> {
        match self.place_for(order) {
            Ok(place) => {
                self.orders.insert(place, order)?;
                Ok(Ok(None))
            }
            Err(refusal) => Ok(Err(refusal)),
        }
    }

    fn take(&mut self, shares: u32) -> Answer {
        let front = self.orders.first_mut().ok_or(Refusal::BadTake)?;
        if shares == 0 || shares > front.shares {
            return Err(Refusal::BadTake);
        }
        front.shares -= shares;
        if front.shares == 0 {
            self.orders.remove(0);
        }
        Ok(None)
    }

    fn remove(&mut self, number: u32) -> Answer {
        let index = self
            .orders
            .iter()
            .position(|order| order.number == number)
            .ok_or(Refusal::NotStanding)?;
        Ok(Some(self.orders.remove(index).shares))
    }
}
