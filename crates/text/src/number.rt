// Decimal numbers written as text.
ghost use Rattle.std.specs.Prelude.{[], IfSome};
ghost use Rattle.text.specs.Numbers.{Next, Number, Numbers};

use crate::lines::cut_before;
use std::str;

// The number that a text begins with, and what follows it. Of one that 64 bits do not hold, as much as they do.
pub fn first_number(text: &[u8]) -> Option<(u64, &[u8])>
    ensures { IfSome result (λ found. Number text.now found.0 found.1.now) }
{
    let (digits, rest) = cut_before(text, |b| !b.is_ascii_digit());
    if digits.is_empty() {
        return None;
    }
    let digits = str::from_utf8(digits).ok()?;
    Some((digits.parse().unwrap_or(u64::MAX), rest))
}

// The next number of a line, with spaces before it, and what follows it; none where 32 bits do not hold it.
pub fn next_number(line: &[u8]) -> Option<(u32, &[u8])>
    ensures { IfSome result (λ found. Next line.now found.0 found.1.now) }
{
    let (_, word) = cut_before(line, |b| *b != b' ');
    let (number, rest) = first_number(word)?;
    let number = u32::try_from(number).ok()?;
    Some((number, rest))
}

// The N numbers of a line that has nothing else.
pub fn numbers<const N: usize>(line: &[u8]) -> Option<[u32; N]>
    ensures { IfSome result (λ values. Numbers line.now values []) }
{
    let mut values = [0u32; N];
    let mut rest = line;
    for value in values.iter_mut() {
        (*value, rest) = next_number(rest)?;
    }
    if rest.is_empty() { Some(values) } else { None }
}
