// One market, line by line.
use crate::answer::{Answer, Denial};
use crate::command::{Command, Question, Typed};
use crate::desk::Desk;
use crate::sheets::Sheets;
use market::venue::Venue;
use matching::trade::Trade;
use rules::form::Form;
use rules::refusal::Refusal;
use rules::sheet::DaySheet;
use rules::terms::Terms;
use runs::call::Call;
use runs::play::make;
use std::io;

// A form is written first, against the sheet in force. Case by case: a method of every call, over what writes a form,
// would ask that it may be called.
fn written(sheet: &DaySheet, call: Call<Terms>) -> Result<Call<Form>, Refusal> {
    Ok(match call {
        Call::Enter(terms) => Call::Enter(Form::write(sheet, terms)?),
        Call::Cancel(number) => Call::Cancel(number),
        Call::Notice {
            marketplace,
            side,
            price,
        } => Call::Notice {
            marketplace,
            side,
            price,
        },
        Call::SetAside(marketplace) => Call::SetAside(marketplace),
        Call::Halt => Call::Halt,
        Call::Resume => Call::Resume,
        Call::Close => Call::Close,
    })
}

// Makes the call, prints what is answered, and the trades that the answer counts.
fn call<V: Venue>(
    desk: &mut Desk,
    sheet: &DaySheet,
    market: &mut V,
    asked: Call<Terms>,
) -> io::Result<()> {
    let made = match written(sheet, asked) {
        Ok(call) => make(market, call, desk.list()),
        Err(refusal) => return desk.say(Err(Denial::Refused(refusal))),
    };
    desk.say(Answer::try_from(made).map_err(Denial::from))?;
    desk.show(made.trades())
}

fn replace_sheet(sheets: &mut Sheets, closing: u32, last: u32) -> Result<Answer, Denial> {
    sheets.replace(closing, last)?;
    Ok(Answer::Sheet(sheets.forms.class()))
}

fn answer_question<V: Venue>(market: &V, question: Question) -> Answer {
    match question {
        Question::Best(side) => Answer::Best(market.best(side)),
        Question::Front(side) => Answer::Front(market.front(side)),
        Question::Shares { side, price } => Answer::Shares(market.shares_at(side, price)),
        Question::Open(number) => Answer::Open(market.open_shares(number)),
    }
}

// Plays the market until a line ends it, and answers that line: another day, other books, or none at the end of the
// input. What is answered to the line that made the market comes first. Desk and sheets are two, since the desk outlasts
// the sheets.
pub fn play<V: Venue>(
    desk: &mut Desk,
    sheets: &mut Sheets,
    market: &mut V,
    opened: Answer,
) -> io::Result<Option<Typed>> {
    desk.say(Ok(opened))?;
    // a count, since a loop over the input needs one to end
    for _ in 0..u64::MAX {
        let Some(typed) = desk.read()? else {
            break;
        };
        match typed {
            Ok(Command::Day { .. } | Command::Books(_)) => return Ok(Some(typed)),
            Ok(Command::Call(asked)) => call(desk, &sheets.forms, market, asked)?,
            Ok(Command::Trades(records)) => {
                let answer = desk.lend_only(records);
                desk.say(Ok(answer))?;
            }
            Ok(Command::Sheet { closing, last }) => {
                desk.say(replace_sheet(sheets, closing, last))?;
            }
            Ok(Command::Question(question)) => {
                desk.say(Ok(answer_question(market, question)))?;
            }
            Err(denial) => desk.say(Err(denial))?,
        }
    }
    Ok(None)
}
