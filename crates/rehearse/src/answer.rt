// What is answered, and how it prints.
use market::answers::{Aside, Cancelled, Entered};
use matching::trade::Trade;
use rules::refusal::Refusal;
use rules::sheet::Class;
use runs::call::Line;
use std::fmt;

#[derive(Clone, Copy)]
pub enum Answer {
    Day(Class),
    // the places of the four books
    Books {
        bids: usize,
        asks: usize,
        dark_bids: usize,
        dark_asks: usize,
    },
    Trades(usize),
    Sheet(Class),
    // to a call on a market
    Entered(Entered),
    Cancelled(Cancelled),
    Quoted(usize),
    Aside(Aside),
    Halted,
    Resumed(usize),
    Closed,
    // to a question
    Best(Option<u32>),
    Front(Option<u32>),
    Shares(u64),
    Open(Option<u32>),
}

// Why a line has no answer. Of this program alone: the other one has no market to miss.
#[derive(Clone, Copy)]
pub enum Denial {
    Malformed,
    NoDay,
    NoMarket,
    Refused(Refusal),
}

impl From<Refusal> for Denial {
    fn from(refusal: Refusal) -> Denial {
        Denial::Refused(refusal)
    }
}

// What is answered to a call, of what is noted of it.
impl TryFrom<Line> for Answer {
    type Error = Refusal;

    fn try_from(line: Line) -> Result<Answer, Refusal> {
        match line {
            Line::Entry { answer, .. } => answer.map(Answer::Entered),
            Line::Cancel { answer, .. } => answer.map(Answer::Cancelled),
            Line::Notice { answer, .. } => answer.map(Answer::Quoted),
            Line::SetAside { answer, .. } => answer.map(Answer::Aside),
            Line::Halt(answer) => answer.map(|()| Answer::Halted),
            Line::Resume(answer) => answer.map(Answer::Resumed),
            Line::Close(answer) => answer.map(|()| Answer::Closed),
        }
    }
}

impl fmt::Display for Denial {
    fn fmt<W: fmt::Write>(&self, f: &mut fmt::Formatter<W>) -> fmt::Result {
        match *self {
            Denial::Malformed => write!(f, "malformed"),
            Denial::NoDay => write!(f, "no day"),
            Denial::NoMarket => write!(f, "no market"),
            Denial::Refused(refusal) => write!(f, "refused {refusal}"),
        }
    }
}

fn show_entered<W: fmt::Write>(entered: Entered, f: &mut fmt::Formatter<W>) -> fmt::Result {
    let Entered {
        number,
        traded,
        booked,
        cancelled,
        way,
        trades,
    } = entered;
    write!(
        f,
        "entered {number} traded {traded} booked {booked} cancelled {cancelled} way {way} trades {trades}"
    )
}

fn show_class<W: fmt::Write>(word: &str, class: Class, f: &mut fmt::Formatter<W>) -> fmt::Result {
    let Class { increment, unit } = class;
    write!(f, "{word} {increment} {unit}")
}

fn show_or_none<W: fmt::Write>(
    word: &str,
    number: Option<u32>,
    f: &mut fmt::Formatter<W>,
) -> fmt::Result {
    match number {
        Some(number) => write!(f, "{word} {number}"),
        None => write!(f, "{word} none"),
    }
}

impl fmt::Display for Answer {
    fn fmt<W: fmt::Write>(&self, f: &mut fmt::Formatter<W>) -> fmt::Result {
        match *self {
            Answer::Day(class) => show_class("day", class, f),
            Answer::Books {
                bids,
                asks,
                dark_bids,
                dark_asks,
            } => write!(f, "books {bids} {asks} {dark_bids} {dark_asks}"),
            Answer::Trades(records) => write!(f, "trades {records}"),
            Answer::Sheet(class) => show_class("sheet", class, f),
            Answer::Entered(entered) => show_entered(entered, f),
            Answer::Cancelled(Cancelled { shares, trades }) => {
                write!(f, "cancelled {shares} trades {trades}")
            }
            Answer::Quoted(trades) => write!(f, "quoted trades {trades}"),
            Answer::Aside(Aside { count, trades }) => write!(f, "aside {count} trades {trades}"),
            Answer::Halted => write!(f, "halted"),
            Answer::Resumed(trades) => write!(f, "resumed trades {trades}"),
            Answer::Closed => write!(f, "closed"),
            Answer::Best(price) => show_or_none("best", price, f),
            Answer::Front(price) => show_or_none("front", price, f),
            Answer::Shares(sum) => write!(f, "shares {sum}"),
            Answer::Open(shares) => show_or_none("open", shares, f),
        }
    }
}

// A trade as a rehearsal prints it: the text is this program's, so it is no `Display` of every trade.
#[derive(Drop)]
pub struct TradeLine(pub Trade);

impl fmt::Display for TradeLine {
    fn fmt<W: fmt::Write>(&self, f: &mut fmt::Formatter<W>) -> fmt::Result {
        let Trade {
            active,
            standing,
            price,
            shares,
            dark,
        } = self.0;
        let kind = if dark { "dark" } else { "displayed" };
        write!(f, "trade {active} {standing} {price} {shares} {kind}")
    }
}
