// One turn of a day.
use crate::call::Call;
use rules::form::Form;

// A call, and how many records of the caller's list it is lent, or all of them where the list has fewer.
#[derive(Drop)]
pub struct Turn {
    pub call: Call<Form>,
    pub lent: usize,
}
