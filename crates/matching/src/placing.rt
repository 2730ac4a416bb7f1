// An entry from matching to the end of its rest.
ghost use Rattle.std.specs.Prelude.{◌≡◌, not, ◌&&◌};
ghost use Rattle.matching.specs.Placing.{is_booked, booked_in, placed, Places};

use crate::candidate::{Around, Entry, front_price};
use crate::entry::match_entry;
use crate::side_books::SideBooks;
use crate::trade::Trade;
use crate::way::{Rest, Way, way_of};
use books::book::Book;
use books::standing::Standing;
use rules::price::BestPrices;
use rules::side::Side;

// What an entry came to: the shares that matching left, how they ended, and how many trades were made.
#[derive(Clone, Copy)]
pub struct Ended {
    pub shares: u32,
    pub way: Way,
    pub trades: usize,
}

// Books the rest at its bound, in the displayed or the dark book of the order's own side.
fn book_rest<O: Book, H: Book<Side = O::Side>>(
    active: &Entry,
    way: Way,
    shares: u32,
    own: &mut O,
    own_dark: &mut H,
)
    ensures own { O.Book.orders own.new ≡ booked_in (is_booked way && active.now.displayed) O.Side.Side.rule (O.Book.room own.old) active.now shares (O.Book.orders own.old) }
    ensures own_dark { H.Book.orders own_dark.new ≡ booked_in (is_booked way && not active.now.displayed) O.Side.Side.rule (H.Book.room own_dark.old) active.now shares (H.Book.orders own_dark.old) }
    ensures places { (O.Book.room own.new ≡ O.Book.room own.old) × (H.Book.room own_dark.new ≡ H.Book.room own_dark.old) }
{
    let Way::Booked = way else {
        return;
    };
    let order = Standing {
        number: active.number,
        price: active.bound,
        shares,
    };
    // an add that is refused leaves its book as it was, as the definition has it
    if active.displayed {
        let _ = own.add(order);
    } else {
        let _ = own_dark.add(order);
    }
}

// Matches an entry, ends its rest and writes the trades to the front of the list. The four books are lent one by one, as
// to `match_entry`.
pub fn place<D: Book, K: Book<Side = D::Side>, O: Book, H: Book<Side = O::Side>>(
    away: BestPrices,
    active: &Entry,
    displayed: &mut D,
    dark: &mut K,
    own: &mut O,
    own_dark: &mut H,
    list: &mut [Trade],
) -> Ended
    ensures places { Places (placed D.Side.Side.rule O.Side.Side.rule away.increment away.quote (O.Book.room own.old) (H.Book.room own_dark.old) active.now (record { displayed = D.Book.orders displayed.old; dark = K.Book.orders dark.old; own = O.Book.orders own.old; own_dark = H.Book.orders own_dark.old })) (record { displayed = D.Book.orders displayed.new; dark = K.Book.orders dark.new; own = O.Book.orders own.new; own_dark = H.Book.orders own_dark.new }) list.old list.new result }
    ensures met_places { (D.Book.room displayed.new ≡ D.Book.room displayed.old) × (K.Book.room dark.new ≡ K.Book.room dark.old) }
    ensures own_places { (O.Book.room own.new ≡ O.Book.room own.old) × (H.Book.room own_dark.new ≡ H.Book.room own_dark.old) }
{
    let around = Around {
        away,
        behind: front_price(own),
    };
    let left = match_entry(active, &around, displayed, dark, list);
    let way = way_of::<D::Side>(Rest {
        shares: left.shares,
        immediate: active.immediate,
        directed: active.directed,
        displayed: active.displayed,
        bound: active.bound,
        away: away.quote.on(D::Side::name()),
        front: front_price(displayed),
    });
    book_rest(active, way, left.shares, own, own_dark);
    Ended {
        shares: left.shares,
        way,
        trades: left.trades,
    }
}

impl<O: Book, H: Book<Side = O::Side>> SideBooks<O, H> {
    // The same over the two books of each side: an entry of this side meets those of the other one.
    pub fn place<D: Book, K: Book<Side = D::Side>>(
        &mut self,
        away: BestPrices,
        active: &Entry,
        met: &mut SideBooks<D, K>,
        list: &mut [Trade],
    ) -> Ended
        ensures places { Places (placed D.Side.Side.rule O.Side.Side.rule away.increment away.quote (O.Book.room self.old.displayed) (H.Book.room self.old.dark) active.now (record { displayed = D.Book.orders met.old.displayed; dark = K.Book.orders met.old.dark; own = O.Book.orders self.old.displayed; own_dark = H.Book.orders self.old.dark })) (record { displayed = D.Book.orders met.new.displayed; dark = K.Book.orders met.new.dark; own = O.Book.orders self.new.displayed; own_dark = H.Book.orders self.new.dark }) list.old list.new result }
        ensures met_places { (D.Book.room met.new.displayed ≡ D.Book.room met.old.displayed) × (K.Book.room met.new.dark ≡ K.Book.room met.old.dark) }
        ensures own_places { (O.Book.room self.new.displayed ≡ O.Book.room self.old.displayed) × (H.Book.room self.new.dark ≡ H.Book.room self.old.dark) }
    {
        place(
            away,
            active,
            &mut met.displayed,
            &mut met.dark,
            &mut self.displayed,
            &mut self.dark,
            list,
        )
    }
}
