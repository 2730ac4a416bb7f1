// Settles by typing which size stops needing a better price, and what a better price is: one answer for each line typed.
#![tactic(auto)]

mod answer;
mod command;

use answer::{Answer, Denial, Desk};
use std::io;
use std::io::{BufRead, BufReader};
use text::line::{Line, read_line};

fn answer_to(desk: &mut Desk, fields: &[&[u8]]) -> Result<Answer, Denial> {
    let command = command::parse(fields).ok_or(Denial::Malformed)?;
    desk.answer(command)
}

// What is answered to one line; a quiet line has no answer. The two programs share how a line is read (`text`), and not
// what is done with it: this one answers at once, the other one hands a command on.
fn respond(rt: &HostRuntime, desk: &mut Desk, bytes: &[u8]) -> io::Result<()> {
    let answered = match read_line(rt.alloc(), bytes)? {
        Line::Quiet => return Ok(()),
        Line::Unended => Err(Denial::Malformed),
        Line::Fields(fields) => answer_to(desk, fields.as_slice()),
    };
    match answered {
        Ok(answer) => println!(rt; "{answer}"),
        Err(denial) => println!(rt; "{denial}"),
    }
}

fn main(rt: HostRuntime) -> io::Result<()> {
    let mut input = BufReader::new(rt.alloc(), rt.stdin())?;
    let mut desk = Desk::new();
    let mut line = Vec::new(rt.alloc());
    // `split` would drop the line feed, and with it whether the last line is ended.
    for _ in 0..u64::MAX {
        line.clear();
        if input.read_until(b'\n', &mut line)? == 0 {
            break;
        }
        respond(&rt, &mut desk, line.as_slice())?;
    }
    Ok(())
}
