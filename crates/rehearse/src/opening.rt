// Making the market that a line describes.
use crate::answer::Answer;
use crate::command::{BookKind, Plan, Typed};
use crate::desk::Desk;
use crate::play::play;
use crate::sheets::Sheets;
use books::book::Book;
use books::packed::Packed;
use chained::chained::Chained;
use chained::record::Record;
use market::trading::Market;
use market::venue::Venue;
use matching::book_set::FourBooks;
use matching::side_books::SideBooks;
use rules::side::{Asks, Bids};
use std::io;

// Makes a book of that kind and goes on with it. The book has a type of its own in each case: an enum of the two kinds
// was tried, plain and over type parameters, and the check does not cover one that holds a book over lent records.
macro_rules! with_book {
    ($kind:expr, $side:ty, $desk:expr, $book:ident => $go_on:expr) => {
        match $kind {
            BookKind::Packed => {
                let $book = Packed::<$side>::new();
                $go_on
            }
            BookKind::Chained(n) => {
                let mut records = vec![in $desk.heap(); Record::BLANK; n]?;
                let $book: Chained<$side> = Chained::new(&mut records[..]);
                $go_on
            }
        }
    };
}

// Makes the market that the plan describes, and plays it. The answer is the line that ended it.
pub fn open(desk: &mut Desk, sheets: &mut Sheets, plan: Plan) -> io::Result<Option<Typed>> {
    with_book!(plan.bids, Bids, desk, bids => {
        with_book!(plan.asks, Asks, desk, asks => with_displayed(desk, sheets, plan, bids, asks))
    })
}

fn with_displayed<DB: Book<Side = Bids> + Drop, DA: Book<Side = Asks> + Drop>(
    desk: &mut Desk,
    sheets: &mut Sheets,
    plan: Plan,
    bids: DB,
    asks: DA,
) -> io::Result<Option<Typed>> {
    with_book!(plan.dark_bids, Bids, desk, dark_bids => {
        with_book!(plan.dark_asks, Asks, desk, dark_asks => {
            let bids = SideBooks {
                displayed: bids,
                dark: dark_bids,
            };
            let asks = SideBooks {
                displayed: asks,
                dark: dark_asks,
            };
            play_over(desk, sheets, bids, asks)
        })
    })
}

fn play_over<
    DB: Book<Side = Bids> + Drop,
    DA: Book<Side = Asks> + Drop,
    KB: Book<Side = Bids> + Drop,
    KA: Book<Side = Asks> + Drop,
>(
    desk: &mut Desk,
    sheets: &mut Sheets,
    bids: SideBooks<DB, KB>,
    asks: SideBooks<DA, KA>,
) -> io::Result<Option<Typed>> {
    let opened = Answer::Books {
        bids: bids.displayed.places(),
        asks: asks.displayed.places(),
        dark_bids: bids.dark.places(),
        dark_asks: asks.dark.places(),
    };
    let mut market = Market::open(&sheets.day, FourBooks { bids, asks });
    play(desk, sheets, &mut market, opened)
}
