ghost use Rattle.std.specs.Prelude.{◌≡◌, ◌<◌};
ghost use Rattle.rules.specs.Prices.{multiple, valid_price, valid_quantity};
ghost use Rattle.rules.specs.Forms.{form_refusal};
ghost use Rattle.rules.specs.Refusals.{Answers};
ghost use Rattle.rules.specs.Sheets.{Made, ClassAt};

use crate::refusal::Refusal;
use crate::sheet::{Class, DaySheet, HIGHEST_PRICE, MOST_SHARES};

// A multiple of the step, from 1 to the most.
fn is_multiple(step: u32, most: u32, n: u32) -> bool
    requires { 0 < step }
    ensures { result ≡ multiple step most n }
{
    (1..=most).contains(&n) && n % step == 0
}

impl DaySheet {
    // Two numbers, and no struct of them: a sheet is what they become.
    pub fn new(closing: u32, last: u32) -> Result<DaySheet, Refusal>
        ensures { Made closing last result }
    {
        if !(1..=HIGHEST_PRICE).contains(&closing) {
            return Err(Refusal::BadClosingPrice);
        }
        if last < 1 {
            return Err(Refusal::NoOrderNumbers);
        }
        Ok(DaySheet { closing, last })
    }

    pub fn closing(&self) -> u32
        ensures { result ≡ self.now.closing }
    {
        self.closing
    }

    pub fn last(&self) -> u32
        ensures { result ≡ self.now.last }
    {
        self.last
    }

    pub fn class(&self) -> Class
        ensures { ClassAt self.now.closing result }
    {
        let increment = if self.closing >= 200 { 4 } else { 2 };
        let unit = if self.closing >= 400 {
            100
        } else if self.closing >= 40 {
            500
        } else {
            1000
        };
        Class { increment, unit }
    }
}

impl Class {
    pub fn is_price(&self, price: u32) -> bool
        ensures { result ≡ valid_price self.now.increment price }
    {
        is_multiple(self.increment, HIGHEST_PRICE, price)
    }

    pub fn is_quantity(&self, shares: u32) -> bool
        ensures { result ≡ valid_quantity self.now.unit shares }
    {
        is_multiple(self.unit, MOST_SHARES, shares)
    }

    // What every form checks, the price first.
    pub(crate) fn check(&self, limit: u32, shares: u32) -> Result<(), Refusal>
        ensures { Answers (form_refusal self.now.increment self.now.unit limit shares) (λ _. Unit {0}) (λ e f. f ≡ e) result }
    {
        if !self.is_price(limit) {
            return Err(Refusal::BadPrice);
        }
        if !self.is_quantity(shares) {
            return Err(Refusal::BadQuantity);
        }
        Ok(())
    }
}
