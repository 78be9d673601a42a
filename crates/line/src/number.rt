// Decimal words and signed offsets at a position of the line.
ghost use Rattle.std.specs.Prelude.{◌≡◌, drop};
ghost use Rattle.line.specs.Scan.{number, finished, below_zero, from_zero, offset};
ghost use Rattle.line.specs.Internal.Places.{number_at, offset_at};

use crate::turn::{State, after_digit};

// The word that ends before `at`, and that place.
fn ended(state: State, at: usize) -> Option<(u32, usize)>
    ensures { result ≡ number_at at (finished state) }
{
    match state {
        State::Opened | State::Spaced | State::Closed => None,
        State::Digits(v) => Some((v, at)),
    }
}

// The word at `at`, and where it ends.
pub(crate) fn read_number(line: &[u8], at: usize) -> Option<(u32, usize)>
    ensures { result ≡ number_at at (number State.Spaced (drop at line.now)) }
{
    if line.len() < at {
        return None;
    }
    let mut state = State::Spaced;
    for p in at..line.len() {
        let b = line[p];
        if !b.is_ascii_digit() {
            return ended(state, p);
        }
        state = after_digit(state, u32::from(b - b'0'))?;
    }
    ended(state, line.len())
}

// The offset with the magnitude v, and its end.
fn below_zero(v: u32, at: usize) -> Option<(i32, usize)>
    ensures { result ≡ offset_at at (below_zero v 0) }
{
    if v == 0 {
        return None;
    }
    if 2147483648 < v {
        return None;
    }
    let less = (v - 1) as i32;
    Some((-1 - less, at))
}

fn from_zero(v: u32, at: usize) -> Option<(i32, usize)>
    ensures { result ≡ offset_at at (from_zero v 0) }
{
    if 2147483647 < v {
        return None;
    }
    Some((v as i32, at))
}

// The offset at `at`, and where it ends.
pub(crate) fn read_offset(line: &[u8], at: usize) -> Option<(i32, usize)>
    ensures { result ≡ offset_at at (offset (drop at line.now)) }
{
    if line.len() <= at {
        return None;
    }
    if line[at] == b'-' {
        let (v, end) = read_number(line, at + 1)?;
        return below_zero(v, end);
    }
    let (v, end) = read_number(line, at)?;
    from_zero(v, end)
}
