// One line of input, as it was read: up to and with its line feed.
ghost use Rattle.std.specs.Prelude.{◌≡◌, [], map, IfOk};
ghost use Rattle.text.specs.Lines.{cut_after, Reads};

use std::alloc::{AllocError, Global};

// Three cases, where a `Result` has two.
#[derive(Drop)]
pub enum Line<'a> {
    // empty, or a comment: nothing is answered
    Quiet,
    // bytes after the last line feed
    Unended,
    Fields(Vec<&'a [u8]>),
}

// Cuts at each single blank; a blank at either end, or two in a row, make an empty field.
fn cut(heap: Global, body: &[u8]) -> Result<Vec<&[u8]>, AllocError>
    ensures { IfOk result (λ v. map (λ field. field.now) v.items ≡ cut_after [] body.now) }
{
    body.split(|b| *b == b' ').collect(heap)
}

pub fn read_line(heap: Global, bytes: &[u8]) -> Result<Line<'_>, AllocError>
    ensures { IfOk result (λ line. Reads bytes.now line) }
{
    match bytes {
        [b'\n'] | [b'#', .., b'\n'] => Ok(Line::Quiet),
        [body @ .., b'\n'] => Ok(Line::Fields(cut(heap, body)?)),
        _ => Ok(Line::Unended),
    }
}
