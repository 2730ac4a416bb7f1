// The lines that are understood.
use crate::answer::Denial;
use rules::terms::{SideName, Terms};
use runs::call::Call;
use text::fields::{read_number, read_price, read_terms};

// The records of the caller's trade list.
pub const LIST: usize = 16_384;

// The most records of a chained book that a line may ask for.
const MOST_RECORDS: u32 = 5_000;

// What kind of book a line asks for. The test of the books names the same two kinds: neither program is a library of
// the other.
#[derive(Clone, Copy)]
pub enum BookKind {
    Packed,
    // in so many records
    Chained(usize),
}

#[derive(Clone, Copy)]
pub struct Plan {
    pub bids: BookKind,
    pub asks: BookKind,
    pub dark_bids: BookKind,
    pub dark_asks: BookKind,
}

#[derive(Clone, Copy)]
pub enum Question {
    Best(SideName),
    Front(SideName),
    Shares { side: SideName, price: u32 },
    Open(u32),
}

// A call's form is still to be written.
#[derive(Clone, Copy)]
pub enum Command {
    Day { closing: u32, last: u32 },
    Books(Plan),
    Trades(usize),
    Sheet { closing: u32, last: u32 },
    Call(Call<Terms>),
    Question(Question),
}

// What a line came to.
pub type Typed = Result<Command, Denial>;

fn parse_side(field: &[u8]) -> Option<SideName> {
    match field {
        b"bid" => Some(SideName::Bid),
        b"ask" => Some(SideName::Ask),
        _ => None,
    }
}

fn parse_book(field: &[u8]) -> Option<BookKind> {
    if let b"packed" = field {
        return Some(BookKind::Packed);
    }
    let records = read_number(field.strip_prefix(b"chained:")?)?;
    if records > MOST_RECORDS {
        return None;
    }
    Some(BookKind::Chained(records as usize))
}

fn parse_quote(marketplace: &[u8], side: &[u8], price: &[u8]) -> Option<Call<Terms>> {
    Some(Call::Notice {
        marketplace: read_number(marketplace)?,
        side: parse_side(side)?,
        price: read_price(price)?,
    })
}

// A word alone.
fn parse_alone(word: &[u8]) -> Option<Command> {
    match word {
        b"halt" => Some(Command::Call(Call::Halt)),
        b"resume" => Some(Command::Call(Call::Resume)),
        b"close" => Some(Command::Call(Call::Close)),
        _ => None,
    }
}

fn parse_numbered(word: &[u8], number: u32) -> Option<Command> {
    match word {
        b"C" => Some(Command::Call(Call::Cancel(number))),
        b"aside" => Some(Command::Call(Call::SetAside(number))),
        b"open" => Some(Command::Question(Question::Open(number))),
        b"trades" if number as usize <= LIST => Some(Command::Trades(number as usize)),
        _ => None,
    }
}

fn parse_sided(word: &[u8], side: SideName) -> Option<Command> {
    match word {
        b"best" => Some(Command::Question(Question::Best(side))),
        b"front" => Some(Command::Question(Question::Front(side))),
        _ => None,
    }
}

// A word with a number or a side.
fn parse_one(word: &[u8], field: &[u8]) -> Option<Command> {
    match read_number(field) {
        Some(number) => parse_numbered(word, number),
        None => parse_sided(word, parse_side(field)?),
    }
}

fn parse_two(word: &[u8], first: &[u8], second: &[u8]) -> Option<Command> {
    let number = read_number(second)?;
    match word {
        b"day" => Some(Command::Day {
            closing: read_number(first)?,
            last: number,
        }),
        b"sheet" => Some(Command::Sheet {
            closing: read_number(first)?,
            last: number,
        }),
        b"shares" => Some(Command::Question(Question::Shares {
            side: parse_side(first)?,
            price: number,
        })),
        _ => None,
    }
}

fn parse_three(word: &[u8], first: &[u8], second: &[u8], third: &[u8]) -> Option<Command> {
    let call = match word {
        b"B" => Call::Enter(read_terms(SideName::Bid, first, second, third)?),
        b"S" => Call::Enter(read_terms(SideName::Ask, first, second, third)?),
        b"quote" => parse_quote(first, second, third)?,
        _ => return None,
    };
    Some(Command::Call(call))
}

fn parse_four(
    word: &[u8],
    bids: &[u8],
    asks: &[u8],
    dark_bids: &[u8],
    dark_asks: &[u8],
) -> Option<Command> {
    let b"books" = word else {
        return None;
    };
    Some(Command::Books(Plan {
        bids: parse_book(bids)?,
        asks: parse_book(asks)?,
        dark_bids: parse_book(dark_bids)?,
        dark_asks: parse_book(dark_asks)?,
    }))
}

// None where the line breaks a rule.
pub fn parse(fields: &[&[u8]]) -> Option<Command> {
    let [word, rest @ ..] = fields else {
        return None;
    };
    match rest {
        [] => parse_alone(word),
        [first] => parse_one(word, first),
        [first, second] => parse_two(word, first, second),
        [first, second, third] => parse_three(word, first, second, third),
        [bids, asks, dark_bids, dark_asks] => parse_four(word, bids, asks, dark_bids, dark_asks),
        _ => None,
    }
}
