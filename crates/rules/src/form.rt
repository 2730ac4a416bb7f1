// The order form. One that exists is valid for the class that it carries, and it is used up by being moved.
ghost use Rattle.std.specs.Prelude.{◌≡◌, true};
ghost use Rattle.rules.specs.Prices.{valid_price, valid_quantity};

use crate::refusal::Refusal;
use crate::sheet::Class;
use crate::terms::Terms;

mod calls;

#[derive(Drop)]
pub struct Form {
    terms: Terms,
    class: Class,
    ghost priced: { valid_price class.increment terms.limit ≡ true },
    ghost sized: { valid_quantity class.unit terms.shares ≡ true },
}

// A form that is refused comes back as it was.
#[derive(Drop)]
pub struct HandedBack {
    pub refusal: Refusal,
    pub form: Form,
}
