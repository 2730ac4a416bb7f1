// What is answered to each line, by the rules.
ghost use Rattle.std.specs.Prelude.{◌≡◌, None};
ghost use Rattle.pricecheck.specs.Desk.{Opens, Responds, better_answer, form_answer};
ghost use Rattle.pricecheck.specs.declared.answer.Denial.TheVariants.{Refused};
ghost use Rattle.rules.specs.Sheets.{increment_at, unit_at};

use crate::command::Command;
use rules::form::Form;
use rules::price::{BestPrices, Quote, Threshold};
use rules::refusal::Refusal;
use rules::sheet::{Class, DaySheet};
use rules::side::{Asks, Bids};
use rules::terms::Terms;
use std::fmt;

#[derive(Clone, Copy)]
pub enum Answer {
    // not a Class, since a definition can name these two numbers, and not the proofs that a Class holds
    Day {
        increment: u32,
        unit: u32,
    },
    Better {
        sale: Threshold,
        purchase: Threshold,
    },
    Form {
        bound: u32,
        large: bool,
    },
}

// Why a line has no answer. Of this program alone: the other one has a market to miss.
#[derive(Clone, Copy)]
pub enum Denial {
    Malformed,
    NoDay,
    Refused(Refusal),
}

impl From<Refusal> for Denial {
    ghost from_gives = { λ refusal denial. denial ≡ Refused refusal };

    fn from(refusal: Refusal) -> Denial {
        Self::Refused(refusal)
    }
}

// The day sheet in force, if there is one.
#[derive(Drop)]
pub struct Desk {
    day: Option<DaySheet>,
}

fn better(day: &DaySheet, quote: Quote) -> Answer
    ensures { result ≡ better_answer (increment_at day.now.closing) quote }
{
    let best = BestPrices {
        increment: day.class().increment,
        quote,
    };
    Answer::Better {
        sale: best.better_from::<Bids>(),
        purchase: best.better_from::<Asks>(),
    }
}

fn form(day: &DaySheet, terms: Terms) -> Result<Answer, Denial>
    ensures { result ≡ form_answer (increment_at day.now.closing) (unit_at day.now.closing) terms }
{
    let form = Form::write(day, terms)?;
    Ok(Answer::Form {
        bound: form.bound(),
        large: form.is_large(),
    })
}

impl Desk {
    // no derived default: a clause says what is made
    pub fn new() -> Desk
        ensures { result.day ≡ None }
    {
        Desk { day: None }
    }

    // A day sheet that is refused leaves no day.
    fn open_day(&mut self, closing: u32, last: u32) -> Result<Answer, Denial>
        ensures { Opens closing last self.new.day result }
    {
        self.day = None;
        let day = DaySheet::new(closing, last)?;
        self.day = Some(day);
        let Class { increment, unit } = day.class();
        Ok(Answer::Day { increment, unit })
    }

    pub fn answer(&mut self, command: Command) -> Result<Answer, Denial>
        ensures { Responds self.old.day command self.new.day result }
    {
        match command {
            Command::Day { closing, last } => self.open_day(closing, last),
            Command::Best(quote) => Ok(better(&self.day.ok_or(Denial::NoDay)?, quote)),
            Command::Form(terms) => form(&self.day.ok_or(Denial::NoDay)?, terms),
        }
    }
}

impl fmt::Display for Answer {
    fn fmt<W: fmt::Write>(&self, f: &mut fmt::Formatter<W>) -> fmt::Result {
        match *self {
            Answer::Day { increment, unit } => write!(f, "day {increment} {unit}"),
            Answer::Better { sale, purchase } => write!(
                f,
                "better sale {sale} purchase {purchase}"
            ),
            Answer::Form { bound, large } => {
                let size = if large { "large" } else { "small" };
                write!(f, "form bound {bound} {size}")
            }
        }
    }
}

impl fmt::Display for Denial {
    fn fmt<W: fmt::Write>(&self, f: &mut fmt::Formatter<W>) -> fmt::Result {
        match *self {
            Denial::Malformed => write!(f, "malformed"),
            Denial::NoDay => write!(f, "no day"),
            Denial::Refused(refusal) => write!(f, "refused {refusal}"),
        }
    }
}
