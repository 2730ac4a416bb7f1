// What outlasts a market: the input, the output and the trade list.
use crate::answer::{Answer, Denial, TradeLine};
use crate::command;
use crate::command::{LIST, Typed};
use matching::trade::Trade;
use std::alloc::{AllocError, Global};
use std::io;
use std::io::{BufRead, BufReader, BufWriter, Stdin, Stdout, Write};
use text::line::{Line, read_line};

#[derive(Drop)]
pub struct Desk {
    heap: Global,
    input: BufReader<Stdin>,
    output: BufWriter<Stdout>,
    line: Vec<u8>,
    list: Vec<Trade>,
    // how many records of the list are lent to a call: a line may lend fewer, and another one all of them again
    lent: usize,
}

// A quiet line is none. The two programs share how a line is read (`text`), and not what is done with it.
fn understand(heap: Global, bytes: &[u8]) -> Result<Option<Typed>, AllocError> {
    let command = match read_line(heap, bytes)? {
        Line::Quiet => return Ok(None),
        Line::Unended => None,
        Line::Fields(fields) => command::parse(fields.as_slice()),
    };
    Ok(Some(command.ok_or(Denial::Malformed)))
}

impl Desk {
    pub fn new(rt: &HostRuntime) -> io::Result<Desk> {
        let heap = rt.alloc();
        Ok(Desk {
            heap,
            input: BufReader::new(heap, rt.stdin())?,
            output: BufWriter::new(heap, rt.stdout())?,
            line: Vec::new(heap),
            list: vec![in heap; Trade::default(); LIST]?,
            lent: LIST,
        })
    }

    // The next line that has an answer; none at the end of the input. Before it waits for input, what was answered is
    // shown: whoever types sees each answer, and a long file is still written in large pieces.
    pub fn read(&mut self) -> io::Result<Option<Typed>> {
        // a count, since a loop over the input needs one to end
        for _ in 0..u64::MAX {
            if self.input.buffer().is_empty() {
                self.output.flush()?;
            }
            self.line.clear();
            if self.input.read_until(b'\n', &mut self.line)? == 0 {
                break;
            }
            let typed = understand(self.heap, self.line.as_slice())?;
            if typed.is_some() {
                return Ok(typed);
            }
        }
        Ok(None)
    }

    pub fn say(&mut self, answered: Result<Answer, Denial>) -> io::Result<()> {
        match answered {
            Ok(answer) => writeln!(self.output, "{answer}"),
            Err(denial) => writeln!(self.output, "{denial}"),
        }
    }

    // Prints so many trades from the front of the list.
    pub fn show(&mut self, trades: usize) -> io::Result<()> {
        for trade in self.list.iter().take(trades) {
            let line = TradeLine(*trade);
            writeln!(self.output, "{line}")?;
        }
        Ok(())
    }

    pub fn flush(&mut self) -> io::Result<()> {
        self.output.flush()
    }

    pub fn lend_all(&mut self) {
        self.lent = LIST;
    }

    pub fn lend_only(&mut self, records: usize) -> Answer {
        self.lent = records;
        Answer::Trades(records)
    }

    // The records that a call may write.
    pub fn list(&mut self) -> &mut [Trade] {
        let end = self.lent.min(self.list.len());
        &mut self.list[0..end]
    }

    pub fn heap(&self) -> Global {
        self.heap
    }
}
