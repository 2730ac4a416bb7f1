// Operations drawn at random, the same ones for the same seed.
ghost use Rattle.std.specs.Prelude.{◌<◌};

use crate::model::Model;
use crate::operation::Operation;
use books::standing::Standing;

#[derive(Drop)]
pub struct Draws {
    state: u32,
}

// The order numbers that are drawn are 0 to this one: for each place of a small book about two.
pub fn last_number(model: &Model) -> u32
    ensures { result < 67 }
{
    model.places().min(32) as u32 * 2 + 2
}

impl Draws {
    pub fn new(seed: u32) -> Draws {
        Draws { state: seed }
    }

    fn below(&mut self, end: u32) -> u32
        requires { 0 < end }
        ensures { result < end }
    {
        self.state = self
            .state
            .wrapping_mul(1_664_525)
            .wrapping_add(1_013_904_223);
        // the low bits of the state repeat soon
        self.state / 65_536 % end
    }

    fn shares(&mut self) -> u32 {
        match self.below(16) {
            0 => 0,
            1 => 10_000_001,
            2 => u32::MAX,
            3 => 10_000_000,
            4 => 1,
            few => few * 100,
        }
    }

    // Prices are few, so that many orders stand at one.
    fn order(&mut self, last: u32) -> Standing
        requires { last < 67 }
    {
        let number = self.below(last + 1);
        let price = if self.below(16) == 0 {
            0
        } else {
            1 + self.below(6)
        };
        let shares = self.shares();
        Standing {
            number,
            price,
            shares,
        }
    }

    // How much to take from a front order with that many shares open.
    fn amount(&mut self, open: u32) -> u32 {
        match self.below(8) {
            0 => 0,
            1 => open.saturating_add(1),
            2 => u32::MAX,
            3 => 1,
            4 => open / 2,
            _ => open,
        }
    }

    // Of 32 operations that many add.
    pub fn operation(&mut self, model: &Model, adds: u32) -> Operation {
        let last = last_number(model);
        let kind = self.below(32);
        if kind < adds {
            return Operation::Add(self.order(last));
        }
        if kind == 31 && self.below(4) == 0 {
            return Operation::Empty;
        }
        if kind % 2 == 0 {
            return Operation::Remove(self.below(last + 1));
        }
        let open = model.front().map_or(0, |order| order.shares);
        Operation::Take(self.amount(open))
    }
}
