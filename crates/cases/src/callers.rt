// What a caller does with a form. `checks/refused` has callers that the compiler refuses: one that uses a form twice, one
// that keeps a copy, and ones that offer bare numbers or a literal as a form.
ghost use Rattle.std.specs.Prelude.{◌≡◌, not};
ghost use Rattle.cases.specs.Callers.{MovedAndBack, Sized};
ghost use Rattle.rules.specs.Forms.{large};

use rules::form::{Form, HandedBack};
use rules::refusal::Refusal;
use rules::sheet::DaySheet;
use rules::terms::Terms;

// To another price and back again: where the first restating is taken, so is the second, and the form is as it was.
pub fn moved_and_back(form: Form, limit: u32) -> Result<Form, HandedBack>
    ensures { MovedAndBack form limit result }
{
    let terms = form.terms();
    let moved = form.restate(limit, terms.shares)?;
    moved.restate(terms.limit, terms.shares)
}

fn needs_better_price(form: &Form) -> bool
    ensures { result ≡ not (large form.now) }
{
    !form.is_large()
}

// Whether an order with these terms would need a better price to trade with a dark one.
pub fn small(sheet: &DaySheet, terms: Terms) -> Result<bool, Refusal>
    ensures { Sized sheet.now terms result }
{
    let form = Form::write(sheet, terms)?;
    Ok(needs_better_price(&form))
}
