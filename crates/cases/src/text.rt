// A case in text: its parts, and words in decimals.
ghost use Rattle.std.specs.Prelude.{◌<◌};

// A word that is being read: its value so far, and how often it is to be written.
#[derive(Clone, Copy)]
struct Word {
    value: u32,
    times: usize,
}

// The place of the first such byte from here on, or the end.
pub(crate) fn find(text: &[u8], at: usize, stop: u8) -> usize {
    for i in at..text.len() {
        if text[i] == stop {
            return i;
        }
    }
    text.len()
}

// What stands from start to end, or nothing.
pub(crate) fn part<'a, T>(row: &'a [T], start: usize, end: usize) -> &'a [T] {
    row.get(start..end).unwrap_or(&[])
}

// The word here, or 0.
pub(crate) fn word_at(words: &[u32], i: usize) -> u32 {
    words.get(i).copied().unwrap_or(0)
}

pub(crate) fn size_at(words: &[u32], i: usize) -> usize
    ensures { result < 4294967296 }
{
    word_at(words, i) as usize
}

// Writes a word so often, as far as there is room: where the next one goes.
fn put_words(row: &mut [u32], from: usize, value: u32, times: usize) -> usize {
    let end = from.saturating_add(times).min(row.len());
    if let Some(places) = row.get_mut(from..end) {
        places.fill(value);
        return end;
    }
    from
}

// How often the word is written at this byte: a space ends it.
fn times_at(w: Word, b: u8) -> usize {
    if b == b' ' {
        return w.times;
    }
    0
}

// Behind this byte: a digit is the word's; what stands before a star says how often the word behind it is written.
fn put_byte(w: Word, b: u8) -> Word {
    match b {
        b' ' => Word { value: 0, times: 1 },
        b'*' => Word {
            value: 0,
            times: w.value as usize,
        },
        b'0'..=b'9' => Word {
            value: longer(w.value, u32::from(b - b'0')),
            ..w
        },
        _ => w,
    }
}

// One digit more of a value, or the largest word.
fn longer(value: u32, digit: u32) -> u32
    requires { digit < 10 }
{
    if 429496728 < value {
        return u32::MAX;
    }
    value * 10 + digit
}

// Writes the words of the text to the front of the row: how many.
pub(crate) fn read_words(text: &[u8], row: &mut [u32]) -> usize {
    let mut w = Word { value: 0, times: 1 };
    let mut at = 0;
    for b in text {
        at = put_words(row, at, w.value, times_at(w, *b));
        w = put_byte(w, *b);
    }
    at
}
