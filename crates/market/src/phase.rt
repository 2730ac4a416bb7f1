// The phases of a market, and what moves it from one to the other.
ghost use Rattle.std.specs.Prelude.{◌≡◌};
ghost use Rattle.market.specs.Phases.{moved};

use rules::refusal::Refusal;

#[derive(Clone, Copy, PartialEq, Eq)]
pub enum Phase {
    Open,
    Halted,
    Closed,
}

#[derive(Clone, Copy)]
pub enum Event {
    Halt,
    Resume,
    Close,
}

impl Phase {
    // Phase and event matched together: a form that the rules of the market name.
    pub fn after(self, event: Event) -> Result<Phase, Refusal>
        ensures { result ≡ moved self event }
    {
        match (self, event) {
            (Phase::Closed, _) => Err(Refusal::MarketClosed),
            (Phase::Open | Phase::Halted, Event::Close) => Ok(Phase::Closed),
            (Phase::Open, Event::Halt) => Ok(Phase::Halted),
            (Phase::Halted, Event::Resume) => Ok(Phase::Open),
            (Phase::Open, Event::Resume) | (Phase::Halted, Event::Halt) => Err(Refusal::WrongPhase),
        }
    }
}
