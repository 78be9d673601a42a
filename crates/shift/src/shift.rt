// Shift: a signed offset is added to each dangling index.
ghost use Rattle.std.specs.Prelude.{◌≡◌, ◌-◌, ◌≤◌, length, ◌==◌};
ghost use Rattle.tree.specs.Form.{pick};
ghost use Rattle.form.specs.Answer.{told, written};
ghost use Rattle.rules.specs.Shift.{shift_outcome};
ghost use Rattle.shift.specs.Internal.Items.{Fresh, wordwise, store, up_by, down_by, move_word, move_item, move_at, low_or_high, shift_words};

use crate::items::{Item, all_in};
use crate::marks::with_marks;
use form::answer::{Answer, Kind, Refusal};
use tree::tag::Tag;

// How far an offset moves up, and how far down: one of the two is 0.
fn up_by(offset: i32) -> u32
    ensures { result ≡ up_by offset }
{
    offset.max(0).unsigned_abs()
}

fn down_by(offset: i32) -> u32
    ensures { result ≡ down_by offset }
{
    offset.min(0).unsigned_abs()
}

// The word moved up and down, as far as words go.
pub fn move_word(up: u32, down: u32, v: u32) -> u32
    ensures { result ≡ move_word up down v }
{
    v.saturating_add(up).saturating_sub(down)
}

pub fn move_item(up: u32, down: u32, it: Item) -> Item
    ensures { result ≡ move_item up down it }
{
    match it {
        Item::Ident(k, t, v) if t == Tag::BOUND_IDENT && k <= v => {
            Item::Ident(k, t, move_word(up, down, v))
        }
        _ => it,
    }
}

// The mark of a tag of indices; 0 for any other.
fn index_mark(m: u32, t: u32) -> u32
    ensures { result ≡ pick (t == 2) m 0 }
{
    if t == Tag::BOUND_IDENT {
        return m;
    }
    0
}

// The word v behind a tag t whose mark is m: moved if it is an index that dangles. The tests are in a form that the compiler makes into
// steps of several words.
fn moved_at(m: u32, t: u32, v: u32, up: u32, down: u32) -> u32
    ensures { result ≡ move_at up down m t v }
{
    let moved = move_word(up, down, v);
    let k = index_mark(m, t);
    if k == 0 {
        return v;
    }
    if v < k - 1 {
        return v;
    }
    moved
}

// The words of a row, each moved by the mark and the word before it.
fn write_moved(row: &[u32], marks: &[u32], up: u32, down: u32, out: &mut [u32])
    requires row_in_bounds { length row.now ≤ length marks.now }
    requires row_in_bounds_2 { length row.now ≤ length out.old }
    ensures { out.new ≡ store out.old 0 (wordwise (move_at up down) 0 0 row.now marks.now) }
{
    if row.len() == 0 {
        return;
    }
    out[0] = row[0];
    for i in 1..row.len() {
        out[i] = moved_at(marks[i - 1], row[i - 1], row[i], up, down);
    }
}

// The number that an index which moves up has to be below.
pub fn top_of(up: u32) -> u32
    ensures { result ≡ 65536 - up }
{
    65536u32.saturating_sub(up)
}

// Why a row whose indices are not all in range is refused: moved down, one would be captured; moved up, it would be over the limit.
fn low_or_high(down: u32) -> Refusal
    ensures { result ≡ low_or_high down }
{
    if down == 0 {
        Refusal::OutOfLimits
    } else {
        Refusal::Captured
    }
}

// Shift of a row that is marked throughout.
pub fn shift_marked(row: &[u32], marks: &[u32], up: u32, down: u32, out: &mut [u32]) -> Answer
    ensures value { result ≡ told (shift_words row.now marks.now up down (length out.old)) }
    ensures out_after { out.new ≡ written (shift_words row.now marks.now up down (length out.old)) out.old }
{
    if marks.len() < row.len() {
        return Err(Refusal::Broken(0));
    }
    if !all_in(row, marks, down, top_of(up)) {
        return Err(low_or_high(down));
    }
    if out.len() < row.len() {
        return Err(Refusal::OutputTooShort);
    }
    write_moved(row, marks, up, down, out);
    Ok(row.len())
}

// Shift with marks of its own. It stays a function of its own, so that no loop reads the rows through the closure that calls it.
#[inline(never)]
fn shift_in(row: &[u32], offset: i32, marks: &mut [u32], out: &mut [u32]) -> Answer
    requires { Fresh row.now marks.old }
    ensures value { result ≡ told (shift_outcome row.now offset (length out.old)) }
    ensures out_after { out.new ≡ written (shift_outcome row.now offset (length out.old)) out.old }
{
    reader::check::mark(row, Kind::Either, marks)?;
    shift_marked(row, marks, up_by(offset), down_by(offset), out)
}

// Adds the offset to each dangling index of the form in the row.
pub fn shift_bound_identifiers(row: &[u32], offset: i32, out: &mut [u32]) -> Answer
    ensures value { result ≡ told (shift_outcome row.now offset (length out.old)) }
    ensures out_after { out.new ≡ written (shift_outcome row.now offset (length out.old)) out.old }
{
    with_marks(row, out, |marks, out| shift_in(row, offset, marks, out)).unwrap_or(Err(
        Refusal::TooLong,
    ))
}
