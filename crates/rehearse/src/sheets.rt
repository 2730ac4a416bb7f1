// The day sheets in force.
use rules::refusal::Refusal;
use rules::sheet::DaySheet;

#[derive(Clone, Copy)]
pub struct Sheets {
    // what a market is made from
    pub day: DaySheet,
    // what forms are written against
    pub forms: DaySheet,
}

impl Sheets {
    // One sheet for both.
    pub fn new(closing: u32, last: u32) -> Result<Sheets, Refusal> {
        let sheet = DaySheet::new(closing, last)?;
        Ok(Sheets {
            day: sheet,
            forms: sheet,
        })
    }

    // A sheet that is refused leaves the one for forms as it was.
    pub fn replace(&mut self, closing: u32, last: u32) -> Result<(), Refusal> {
        self.forms = DaySheet::new(closing, last)?;
        Ok(())
    }
}
