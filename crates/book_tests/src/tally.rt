// How many operations were accepted, and how many met each refusal.
use crate::operation::Answer;
use std::fmt;

#[derive(Clone, Copy, Default)]
pub struct Tally {
    accepted: u32,
    bad_orders: u32,
    book_full: u32,
    bad_takes: u32,
    not_standing: u32,
}

impl Tally {
    // By the numbers that the refusals must have, which are printed below.
    pub fn note(&mut self, answer: Answer) {
        let count = match answer.map_err(|refusal| refusal.number()) {
            Err(5) => &mut self.bad_orders,
            Err(6) => &mut self.book_full,
            Err(7) => &mut self.bad_takes,
            Err(8) => &mut self.not_standing,
            _ => &mut self.accepted,
        };
        *count = count.saturating_add(1);
    }

    fn refused(&self) -> u32 {
        let orders = self.bad_orders.saturating_add(self.book_full);
        let others = self.bad_takes.saturating_add(self.not_standing);
        orders.saturating_add(others)
    }

    pub fn operations(&self) -> u32 {
        self.accepted.saturating_add(self.refused())
    }
}

impl fmt::Display for Tally {
    fn fmt<W: fmt::Write>(&self, f: &mut fmt::Formatter<W>) -> fmt::Result {
        let accepted = self.accepted;
        let five = self.bad_orders;
        let six = self.book_full;
        let seven = self.bad_takes;
        let eight = self.not_standing;
        write!(
            f,
            "{accepted} accepted, {five} refused with 5, {six} with 6, {seven} with 7, {eight} with 8"
        )
    }
}
