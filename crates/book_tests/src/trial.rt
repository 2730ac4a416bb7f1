// A book and the model go through the same operations, and every answer is compared.
use crate::draws::{Draws, last_number};
use crate::model::Model;
use crate::operation::{Function, Operation};
use crate::tally::Tally;
use books::book::Book;
use books::standing::Standing;
use chained::chained::{Chained, Task};
use rules::side::Side;
use rules::terms::SideName;
use std::alloc::{AllocError, Global};

#[derive(Drop)]
pub enum Failure {
    NoMemory,
    // the book and the model answered differently
    Differs(Function),
}

impl From<AllocError> for Failure {
    fn from(_error: AllocError) -> Failure {
        Failure::NoMemory
    }
}

impl From<Function> for Failure {
    fn from(function: Function) -> Failure {
        Failure::Differs(function)
    }
}

#[derive(Drop)]
pub struct Trial {
    model: Model,
    draws: Draws,
    tally: Tally,
}

#[derive(Drop)]
pub struct Outcome {
    pub tally: Tally,
    pub result: Result<(), Failure>,
}

// Book and model stand side by side wherever they are compared: that is what a trial does.

fn same_orders<B: Book>(book: &B, model: &Model, last: u32) -> bool {
    (0..last).all(|number| book.find(number) == model.find(number))
}

// Prices 1 to 6 are drawn.
fn same_shares<B: Book>(book: &B, model: &Model) -> bool {
    (0..8).all(|price| book.shares_at(price) == model.shares_at(price))
}

// The questions that need no walk through the book.
fn compare_ends<B: Book>(book: &B, model: &Model) -> Result<(), Function> {
    if book.count() != model.count() {
        return Err(Function::Count);
    }
    if book.places() != model.places() {
        return Err(Function::Places);
    }
    if book.front() != model.front() {
        return Err(Function::Front);
    }
    Ok(())
}

// Orders are looked for by every number below that one.
fn compare<B: Book>(book: &B, model: &Model, numbers: u32) -> Result<(), Function> {
    compare_ends(book, model)?;
    if !same_orders(book, model, numbers) {
        return Err(Function::Find);
    }
    if !same_shares(book, model) {
        return Err(Function::SharesAt);
    }
    Ok(())
}

impl Trial {
    pub fn new(heap: Global, side: SideName, places: usize, seed: u32) -> Trial {
        Trial {
            model: Model::new(heap, side, places),
            draws: Draws::new(seed),
            tally: Tally::default(),
        }
    }

    fn step<B: Book>(&mut self, book: &mut B, operation: Operation) -> Result<(), Failure> {
        let expected = self.model.apply(operation)?;
        let answer = operation.apply(book);
        self.tally.note(answer);
        if answer != expected {
            return Err(Failure::Differs(operation.function()));
        }
        compare_ends(book, &self.model)?;
        Ok(())
    }

    // Many adds and then fewer, by turns, so that the book is full at times and empty at times.
    fn drive<B: Book>(&mut self, book: &mut B, operations: u32) -> Result<(), Failure> {
        let numbers = last_number(&self.model) + 2;
        compare(book, &self.model, numbers)?;
        for index in 0..operations {
            let adds = if index / 100 % 2 == 0 { 28 } else { 8 };
            let operation = self.draws.operation(&self.model, adds);
            self.step(book, operation)?;
            compare(book, &self.model, numbers)?;
        }
        Ok(())
    }

    // Takes every order whole, and so sees the book's whole list.
    fn drain<B: Book>(&mut self, book: &mut B) -> Result<(), Failure> {
        for _ in 0..self.model.places() {
            let Some(order) = self.model.front() else {
                break;
            };
            self.step(book, Operation::Take(order.shares))?;
        }
        self.step(book, Operation::Take(1))
    }

    // Takes all places of the largest book, and asks for one more.
    fn fill<B: Book>(&mut self, book: &mut B) -> Result<(), Failure> {
        for number in 1..=4097 {
            let order = Standing {
                number,
                price: 3,
                shares: 10_000_000,
            };
            self.step(book, Operation::Add(order))?;
        }
        if book.shares_at(3) != 40_960_000_000 {
            return Err(Failure::Differs(Function::SharesAt));
        }
        compare(book, &self.model, 4099)?;
        Ok(())
    }

    // Orders leave a full book all along its list and come back at other prices, and each time one more finds no place.
    fn churn<B: Book>(&mut self, book: &mut B) -> Result<(), Failure> {
        for round in 0..64 {
            let order = Standing {
                number: round * 64 + 1,
                price: round % 6 + 1,
                shares: 100,
            };
            let late = Standing {
                number: 5000,
                ..order
            };
            self.step(book, Operation::Remove(order.number))?;
            self.step(book, Operation::Add(order))?;
            self.step(book, Operation::Add(late))?;
        }
        compare(book, &self.model, 4099)?;
        Ok(())
    }

    fn crowd<B: Book>(&mut self, book: &mut B) -> Result<(), Failure> {
        self.fill(book)?;
        self.churn(book)?;
        self.drain(book)
    }

    // The largest book is crowded first.
    fn go<B: Book>(&mut self, book: &mut B) -> Result<(), Failure> {
        if self.model.places() == 4096 {
            self.crowd(book)?;
        }
        self.drive(book, 300)?;
        self.drain(book)?;
        self.drive(book, 100)
    }

    pub fn run<B: Book>(mut self, book: &mut B) -> Outcome {
        let result = self.go(book);
        Outcome {
            tally: self.tally,
            result,
        }
    }
}

impl<S: Side> Task<S> for Trial {
    type Answer = Outcome;

    fn run(self, book: &mut Chained<'_, S>) -> Outcome {
        Trial::run(self, book)
    }
}
