ghost use Rattle.std.specs.Prelude.{◌≡◌, ◌-◌};
ghost use Rattle.market.specs.Marketplaces.{Numbered};
ghost use Rattle.market.specs.Quoting.{bit};

use crate::marketplace::Marketplace;
use rules::refusal::Refusal;

impl TryFrom<u32> for Marketplace {
    type Error = Refusal;

    ghost try_from_gives = { Numbered };

    fn try_from(number: u32) -> Result<Marketplace, Refusal> {
        if !(1..=8).contains(&number) {
            return Err(Refusal::NoMarketplace);
        }
        Ok(Marketplace { number })
    }
}

impl Marketplace {
    pub(crate) fn index(self) -> usize
        ensures { result ≡ self.number - 1 }
    {
        (self.number - 1) as usize
    }

    pub(crate) fn bit(self) -> u8
        ensures { result ≡ bit self.number }
    {
        1 << (self.number - 1)
    }
}
