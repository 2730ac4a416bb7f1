// Plays a rehearsal: each line of a member or of the operator is answered. docs/REHEARSAL.md has the text of both.
#![tactic(auto)]

mod answer;
mod command;
mod desk;
mod opening;
mod play;
mod sheets;

use answer::{Answer, Denial};
use command::{Command, Typed};
use desk::Desk;
use sheets::Sheets;
use std::io;

// A day sheet that is refused leaves no day.
fn open_day(day: &mut Option<Sheets>, closing: u32, last: u32) -> Result<Answer, Denial> {
    *day = None;
    let sheets = Sheets::new(closing, last)?;
    *day = Some(sheets);
    Ok(Answer::Day(sheets.day.class()))
}

// What is answered where there is no market.
fn without_market(
    desk: &mut Desk,
    day: &mut Option<Sheets>,
    command: Command,
) -> Result<Answer, Denial> {
    match command {
        Command::Day { closing, last } => {
            desk.lend_all();
            open_day(day, closing, last)
        }
        Command::Books(_) => Err(Denial::NoDay),
        Command::Trades(records) => Ok(desk.lend_only(records)),
        Command::Sheet { .. } | Command::Call(_) | Command::Question(_) => Err(Denial::NoMarket),
    }
}

// Answers a line, and then the lines of the market that it makes, if it makes one. The answer is the next line.
fn go_on(desk: &mut Desk, day: &mut Option<Sheets>, typed: Typed) -> io::Result<Option<Typed>> {
    if let (Ok(Command::Books(plan)), Some(sheets)) = (typed, day.as_mut()) {
        return opening::open(desk, sheets, plan);
    }
    let answered = typed.and_then(|command| without_market(desk, day, command));
    desk.say(answered)?;
    desk.read()
}

fn main(rt: HostRuntime) -> io::Result<()> {
    let mut desk = Desk::new(&rt)?;
    let mut day = None;
    let mut next = desk.read()?;
    // a count, since a loop over the input needs one to end
    for _ in 0..u64::MAX {
        let Some(typed) = next else {
            break;
        };
        next = go_on(&mut desk, &mut day, typed)?;
    }
    desk.flush()
}
