// The calls of a market as values, and what is noted of each.
ghost use Rattle.std.specs.Prelude.{◌≡◌};
ghost use Rattle.runs.specs.Days.{count_in};

use market::answers::{Aside, Cancelled, Entered};
use rules::refusal::Refusal;
use rules::sheet::Class;
use rules::terms::{SideName, Terms};

// An entry has a form, or what is to become one.
#[derive(Clone, Copy, Drop)]
pub enum Call<F> {
    Enter(F),
    Cancel(u32),
    // three fields, as the function of the interface has three parameters: a struct of them would be taken apart there
    Notice {
        marketplace: u32,
        side: SideName,
        price: Option<u32>,
    },
    SetAside(u32),
    Halt,
    Resume,
    Close,
}

// A call with its answer. An entry is noted by what its form said, since an accepted one uses the form up.
#[derive(Clone, Copy)]
pub enum Line {
    Entry {
        terms: Terms,
        class: Class,
        answer: Result<Entered, Refusal>,
    },
    Cancel {
        number: u32,
        answer: Result<Cancelled, Refusal>,
    },
    Notice {
        marketplace: u32,
        side: SideName,
        price: Option<u32>,
        answer: Result<usize, Refusal>,
    },
    SetAside {
        marketplace: u32,
        answer: Result<Aside, Refusal>,
    },
    Halt(Result<(), Refusal>),
    Resume(Result<usize, Refusal>),
    Close(Result<(), Refusal>),
}

impl Line {
    // How many trades the answer tells: none where the call was refused.
    pub fn trades(&self) -> usize
        ensures { result ≡ count_in self.now }
    {
        match *self {
            Line::Entry { answer, .. } => answer.map_or(0, |entered| entered.trades),
            Line::Cancel { answer, .. } => answer.map_or(0, |cancelled| cancelled.trades),
            Line::SetAside { answer, .. } => answer.map_or(0, |aside| aside.trades),
            Line::Notice { answer, .. } | Line::Resume(answer) => answer.unwrap_or(0),
            Line::Halt(_) | Line::Close(_) => 0,
        }
    }
}
