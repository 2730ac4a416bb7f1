// The calls that alter a book, what they answer, and the names of all its functions.
use books::book::Book;
use books::standing::Standing;
use rules::refusal::Refusal;
use std::fmt;

// In one form for all of them: the open shares of an order that went, or nothing, or a refusal.
pub type Answer = Result<Option<u32>, Refusal>;

#[derive(Clone, Copy)]
pub enum Operation {
    Add(Standing),
    Take(u32),
    Remove(u32),
    Empty,
}

impl Operation {
    pub fn function(self) -> Function {
        match self {
            Operation::Add(_) => Function::Add,
            Operation::Take(_) => Function::Take,
            Operation::Remove(_) => Function::Remove,
            Operation::Empty => Function::Empty,
        }
    }

    pub fn apply<B: Book>(self, book: &mut B) -> Answer {
        match self {
            Operation::Add(order) => book.add(order).map(|()| None),
            Operation::Take(shares) => book.take(shares).map(|()| None),
            Operation::Remove(number) => book.remove(number).map(Some),
            Operation::Empty => {
                book.empty();
                Ok(None)
            }
        }
    }
}

#[derive(Clone, Copy)]
pub enum Function {
    Add,
    Take,
    Remove,
    Empty,
    Count,
    Places,
    Front,
    Find,
    SharesAt,
}

impl fmt::Display for Function {
    fn fmt<W: fmt::Write>(&self, f: &mut fmt::Formatter<W>) -> fmt::Result {
        let name = match *self {
            Function::Add => "add",
            Function::Take => "take",
            Function::Remove => "remove",
            Function::Empty => "empty",
            Function::Count => "count",
            Function::Places => "places",
            Function::Front => "front",
            Function::Find => "find",
            Function::SharesAt => "shares_at",
        };
        write!(f, "{name}")
    }
}
