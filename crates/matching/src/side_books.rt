// The two books of one side.
ghost use Rattle.std.specs.Prelude.{◌≡◌, ◌+◌, [], length, nat_lt, if◌then◌else◌};

use books::book::Book;

// The displayed and the dark book, both of the same side wherever they are used.
#[derive(Drop)]
pub struct SideBooks<D, K> {
    pub displayed: D,
    pub dark: K,
}

impl<D: Book, K: Book> SideBooks<D, K> {
    pub(crate) fn empty(&mut self)
        ensures displayed { D.Book.orders self.new.displayed ≡ [] }
        ensures dark { K.Book.orders self.new.dark ≡ [] }
        ensures places { (D.Book.room self.new.displayed ≡ D.Book.room self.old.displayed) × (K.Book.room self.new.dark ≡ K.Book.room self.old.dark) }
    {
        self.displayed.empty();
        self.dark.empty();
    }

    // How many orders stand.
    pub(crate) fn count(&self) -> usize
        ensures { result ≡ length (D.Book.orders self.now.displayed) + length (K.Book.orders self.now.dark) }
    {
        self.displayed.count() + self.dark.count()
    }

    // Whether the displayed book has a free place, or else the dark one.
    pub(crate) fn has_room(&self, displayed: bool) -> bool
        ensures { result ≡ (if displayed then nat_lt (length (D.Book.orders self.now.displayed)) (D.Book.room self.now.displayed) else nat_lt (length (K.Book.orders self.now.dark)) (K.Book.room self.now.dark)) }
    {
        if displayed {
            self.displayed.has_room()
        } else {
            self.dark.has_room()
        }
    }
}
