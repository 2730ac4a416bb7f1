ghost use Rattle.std.specs.Prelude.{◌≡◌};
ghost use Rattle.rules.specs.Forms.{Written, Restated, bound, large};

use crate::form::{Form, HandedBack};
use crate::refusal::Refusal;
use crate::sheet::{Class, DaySheet};
use crate::terms::{Kind, SideName, Terms};

impl Form {
    // Checks bare terms against a day sheet.
    pub fn write(sheet: &DaySheet, terms: Terms) -> Result<Form, Refusal>
        ensures { Written sheet.now terms result }
    {
        let class = sheet.class();
        class.check(terms.limit, terms.shares)?;
        Ok(Form { terms, class })
    }

    // Another price and quantity; everything else stays.
    pub fn restate(self, limit: u32, shares: u32) -> Result<Form, HandedBack>
        ensures { Restated self limit shares result }
    {
        let class = self.class;
        // no `?`, since a refused form goes back
        if let Err(refusal) = class.check(limit, shares) {
            return Err(HandedBack {
                refusal,
                form: self,
            });
        }
        let terms = Terms {
            limit,
            shares,
            ..self.terms
        };
        Ok(Form { terms, class })
    }

    pub fn terms(&self) -> Terms
        ensures { result ≡ self.now.terms }
    {
        self.terms
    }

    pub fn class(&self) -> Class
        ensures { result ≡ self.now.class }
    {
        self.class
    }

    // The price at which the order stands in a book, and beyond which it does not trade.
    pub fn bound(&self) -> u32
        ensures { result ≡ bound self.now }
    {
        let limit = self.terms.limit;
        let half = self.class.increment / 2;
        match (self.terms.kind, self.terms.side) {
            (Kind::HalfStep, SideName::Bid) => limit - half,
            (Kind::HalfStep, SideName::Ask) => limit + half,
            _ => limit,
        }
    }

    // Whether the order may trade with a dark one at the best price, with no better price.
    pub fn is_large(&self) -> bool
        ensures { result ≡ large self.now }
    {
        let shares = self.terms.shares as u64;
        shares > 50 * self.class.unit as u64 || self.terms.limit as u64 * shares > 40_000_000
    }
}

// For a caller that lets the form go.
impl From<HandedBack> for Refusal {
    ghost from_gives = { λ back refusal. refusal ≡ back.refusal };

    fn from(back: HandedBack) -> Refusal {
        back.refusal
    }
}
