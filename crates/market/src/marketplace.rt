// The eight other marketplaces.
ghost use Rattle.std.specs.Prelude.{◌≤◌};

mod calls;

// The number of one of them.
#[derive(Clone, Copy)]
pub(crate) struct Marketplace {
    number: u32,
    ghost low: { 1 ≤ number },
    ghost high: { number ≤ 8 },
}
