// Drives each kind of book beside a plain model, on both sides, and compares every answer.
#![tactic(auto)]

mod draws;
mod model;
mod operation;
mod tally;
mod title;
mod trial;

use books::packed::Packed;
use chained::chained::lend;
use chained::record::Record;
use rules::side::{Asks, Bids, Side};
use std::io;
use title::{Kind, Title};
use trial::{Failure, Outcome, Trial};

fn report(rt: &HostRuntime, title: Title, outcome: Outcome) -> io::Result<()> {
    let Outcome { tally, result } = outcome;
    let operations = tally.operations();
    match result {
        Ok(()) => println!(rt; "{title}: {operations} operations agree, {tally}"),
        Err(Failure::Differs(function)) => {
            println!(rt; "{title}: operation {operations}: {function} differs")?;
            Err(io::Error::other("a book and the model disagree"))
        }
        Err(Failure::NoMemory) => Err(io::Error::other("no memory")),
    }
}

// Two trials, each with a seed of its own, which are run on books of that kind.
fn try_kind<S: Side, F: FnMut(Trial) -> Outcome>(
    rt: &HostRuntime,
    kind: Kind,
    places: usize,
    mut run: F,
) -> io::Result<()>
    requires { F.IsAlwaysCallable run }
{
    let side = S::name();
    for seed in 1..3 {
        let trial = Trial::new(rt.alloc(), side, places, seed);
        report(rt, Title { side, kind, seed }, run(trial))?;
    }
    Ok(())
}

fn try_packed<S: Side>(rt: &HostRuntime) -> io::Result<()> {
    try_kind::<S, _>(rt, Kind::Packed, 32, |trial| {
        let mut book: Packed<S> = Packed::new();
        trial.run(&mut book)
    })
}

// The second book finds the records as the first one has left them.
fn try_chained<S: Side>(rt: &HostRuntime, records: usize, places: usize) -> io::Result<()> {
    let mut lent = vec![in rt.alloc(); Record::BLANK; records]?;
    try_kind::<S, _>(rt, Kind::Chained(records), places, |trial| {
        lend::<S, Trial>(lent.as_mut_slice(), trial)
    })
}

fn try_side<S: Side>(rt: &HostRuntime) -> io::Result<()> {
    try_packed::<S>(rt)?;
    try_chained::<S>(rt, 33, 32)?;
    try_chained::<S>(rt, 2, 1)?;
    try_chained::<S>(rt, 1, 0)?;
    try_chained::<S>(rt, 0, 0)?;
    try_chained::<S>(rt, 5000, 4096)
}

fn main(rt: HostRuntime) -> io::Result<()> {
    try_side::<Bids>(&rt)?;
    try_side::<Asks>(&rt)?;
    println!(rt; "all agree")
}
