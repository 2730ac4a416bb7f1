// The record of a trade, and the caller's list of them.
ghost use Rattle.std.specs.Prelude.{◌≡◌, slice_set};

#[derive(Clone, Copy, PartialEq, Eq, Default)]
pub struct Trade {
    pub active: u32,
    pub standing: u32,
    pub price: u32,
    pub shares: u32,
    // whether the standing order is dark: a flag, as the record is read by members
    pub dark: bool,
}

// Writes a record where the list has one; past its end there is none to write.
pub fn write_trade(list: &mut [Trade], at: usize, trade: Trade)
    ensures { list.new ≡ slice_set list.old at trade }
{
    if at < list.len() {
        list[at] = trade;
    }
}
