// The day sheet, and the class of the security for the day.
ghost use Rattle.std.specs.Prelude.{◌≡◌, ◌%◌, ◌≤◌};

mod calls;

// The highest price, in quarter cents.
pub const HIGHEST_PRICE: u32 = 4_000_000;

// The most shares of an order.
pub const MOST_SHARES: u32 = 10_000_000;

// The increment is 2 or 4 quarter cents, so it has a half; the standard unit is never 0.
#[derive(Clone, Copy, PartialEq, Eq)]
pub struct Class {
    pub increment: u32,
    pub unit: u32,
    ghost halved: { increment % 2 ≡ 0 },
    ghost least: { 2 ≤ increment },
    ghost most: { increment ≤ 4 },
    ghost lot: { 100 ≤ unit },
    ghost largest_lot: { unit ≤ 1000 },
}

// The previous closing price, and the last order number that may be issued.
#[derive(Clone, Copy)]
pub struct DaySheet {
    closing: u32,
    last: u32,
    ghost priced: { 1 ≤ closing },
    ghost within: { closing ≤ 4000000 },
    ghost numbered: { 1 ≤ last },
}
