// The fields that every program reads.
ghost use Rattle.std.specs.Prelude.{◌≡◌};
ghost use Rattle.text.specs.Fields.{number_in, price_in, marks_in, marks_after, terms_in};

use rules::terms::{Kind, SideName, Terms};

#[derive(Clone, Copy)]
pub struct Marks {
    pub kind: Kind,
    pub immediate: bool,
    pub directed: bool,
}

// One to ten decimal digits within 32 bits.
pub fn read_number(field: &[u8]) -> Option<u32>
    ensures { result ≡ number_in field.now }
{
    if field.is_empty() || field.len() > 10 {
        return None;
    }
    let mut n: u64 = 0;
    for b in field {
        if !b.is_ascii_digit() {
            return None;
        }
        n = n * 10 + (*b - b'0') as u64;
    }
    u32::try_from(n).ok()
}

// A price, or none.
pub fn read_price(field: &[u8]) -> Option<Option<u32>>
    ensures { result ≡ price_in field.now }
{
    match field {
        b"none" => Some(None),
        _ => read_number(field).map(Some),
    }
}

// What follows the letter of the kind.
fn marks_after(kind: Kind, rest: &[u8]) -> Option<Marks>
    ensures { result ≡ marks_after kind rest.now }
{
    let (immediate, directed) = match rest {
        [] => (false, false),
        b"I" => (true, false),
        b"A" => (false, true),
        b"IA" => (true, true),
        _ => return None,
    };
    Some(Marks {
        kind,
        immediate,
        directed,
    })
}

// A letter for the kind, then perhaps I for immediate, then perhaps A for directed.
pub fn read_marks(field: &[u8]) -> Option<Marks>
    ensures { result ≡ marks_in field.now }
{
    let [letter, rest @ ..] = field else {
        return None;
    };
    match *letter {
        b'L' => marks_after(Kind::Displayed, rest),
        b'K' => marks_after(Kind::Dark, rest),
        b'H' => marks_after(Kind::HalfStep, rest),
        _ => None,
    }
}

// What the fields of an order say.
pub fn read_terms(side: SideName, price: &[u8], shares: &[u8], marks: &[u8]) -> Option<Terms>
    ensures { result ≡ terms_in side price.now shares.now marks.now }
{
    let limit = read_number(price)?;
    let shares = read_number(shares)?;
    let Marks {
        kind,
        immediate,
        directed,
    } = read_marks(marks)?;
    Some(Terms {
        side,
        limit,
        shares,
        kind,
        immediate,
        directed,
    })
}
