// A list with a record for each standing order is long enough for every call: that is why no more is asked of it.
ghost use Rattle.market.specs.Bounds.{SoundBooks, TradesFit};
ghost use Rattle.market.specs.Calls.{State};

// The theorem, over every state whose orders have a number, a price and shares, as those of every book have.
pub fn trades_fit()
    ensures { (s : State) → SoundBooks s.books → TradesFit s }
{}
