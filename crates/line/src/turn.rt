// One byte of a group: where the reader stands after it, and the word that it gives.
ghost use Rattle.std.specs.Prelude.{◌≡◌, true, ◌+◌, ◌<◌, ◌^◌};
ghost use Rattle.line.specs.Scan.{on_open, on_close, on_space, on_digit, turn, note, mark_words, depth_after};
ghost use Rattle.spell.specs.Internal.Writes.{Wrote};

// What stands before: '[', ' ', ']', or the digits of a word with this value.
#[derive(Clone, Copy)]
pub enum State {
    Opened,
    Spaced,
    Closed,
    Digits(u32),
}

fn after_open(state: State) -> Option<State>
    ensures { result ≡ on_open state }
{
    match state {
        State::Opened | State::Spaced => Some(State::Opened),
        State::Closed | State::Digits(_) => None,
    }
}

fn after_close(state: State) -> Option<State>
    ensures { result ≡ on_close state }
{
    match state {
        State::Spaced => None,
        State::Opened | State::Closed | State::Digits(_) => Some(State::Closed),
    }
}

fn after_space(state: State) -> Option<State>
    ensures { result ≡ on_space state }
{
    match state {
        State::Opened | State::Spaced => None,
        State::Closed | State::Digits(_) => Some(State::Spaced),
    }
}

// One digit more of the word v.
fn longer(v: u32, digit: u32) -> Option<State>
    requires { digit < 10 }
    ensures { result ≡ on_digit (State.Digits v) digit }
{
    if v == 0 {
        return None;
    }
    let w = v.checked_mul(10)?.checked_add(digit)?;
    Some(State::Digits(w))
}

pub(crate) fn after_digit(state: State, digit: u32) -> Option<State>
    requires { digit < 10 }
    ensures { result ≡ on_digit state digit }
{
    match state {
        State::Opened | State::Spaced => Some(State::Digits(digit)),
        State::Closed => None,
        State::Digits(v) => longer(v, digit),
    }
}

pub(crate) fn next(state: State, byte: u8) -> Option<State>
    ensures { result ≡ turn state byte }
{
    match byte {
        b' ' => after_space(state),
        b'0'..=b'9' => after_digit(state, u32::from(byte - b'0')),
        b'[' => after_open(state),
        b']' => after_close(state),
        _ => None,
    }
}

// What the first byte inside a place's bracket gives.
fn place_mark(places: bool, depth: usize, byte: u8) -> Option<u32>
    ensures { result ≡ note places depth State.Opened byte }
{
    if !places || depth != 2 {
        return None;
    }
    if byte == b']' {
        return Some(0);
    }
    Some(1)
}

// The word that ends where a byte is no digit.
fn word_mark(v: u32, byte: u8) -> Option<u32>
    ensures { result ≡ note true 0 (State.Digits v) byte }
{
    if byte.is_ascii_digit() {
        return None;
    }
    Some(v)
}

// The word that the byte ends or gives.
pub(crate) fn noted(places: bool, depth: usize, state: State, byte: u8) -> Option<u32>
    ensures { result ≡ note places depth state byte }
{
    match state {
        State::Opened => place_mark(places, depth, byte),
        State::Spaced | State::Closed => None,
        State::Digits(v) => word_mark(v, byte),
    }
}

pub(crate) fn depth_after(depth: usize, byte: u8) -> usize
    requires { (0 < depth) × (depth + 1 < 2 ^ 64) }
    ensures { result ≡ depth_after depth byte }
{
    match byte {
        b'[' => depth + 1,
        b']' => depth - 1,
        _ => depth,
    }
}

// The word of a mark, at n of the row. Nothing is written past its end.
pub(crate) fn put_mark(row: &mut [u32], n: usize, mark: Option<u32>) -> usize
    requires { n + 1 < 2 ^ 64 }
    ensures { Wrote n (mark_words mark) row.old row.new result }
{
    let Some(w) = mark else {
        return n;
    };
    if row.len() <= n {
        return n + 1;
    }
    row[n] = w;
    n + 1
}
