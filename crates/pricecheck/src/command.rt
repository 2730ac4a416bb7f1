// The lines that are understood.
use rules::price::Quote;
use rules::terms::{SideName, Terms};
use text::fields::{read_number, read_price, read_terms};

#[derive(Clone, Copy)]
pub enum Command {
    Day { closing: u32, last: u32 },
    Best(Quote),
    Form(Terms),
}

// None where the line breaks a rule.
pub fn parse(fields: &[&[u8]]) -> Option<Command> {
    match fields {
        [b"day", closing, last] => Some(Command::Day {
            closing: read_number(closing)?,
            last: read_number(last)?,
        }),
        [b"best", bid, ask] => Some(Command::Best(Quote {
            bid: read_price(bid)?,
            ask: read_price(ask)?,
        })),
        [b"B", price, shares, marks] => {
            read_terms(SideName::Bid, price, shares, marks).map(Command::Form)
        }
        [b"S", price, shares, marks] => {
            read_terms(SideName::Ask, price, shares, marks).map(Command::Form)
        }
        _ => None,
    }
}
