// A row and its marks, item by item: the words that stay, and the names and indices with their depth.
ghost use Rattle.std.specs.Prelude.{◌≡◌, drop};
ghost use Rattle.shift.specs.Internal.Items.{item_at, items, size_of, words_of, all_items, item_in, all_below, store};

use tree::tag::Tag;

// A word that stays, or a name or index: its depth, tag and number.
#[derive(Clone, Copy)]
pub enum Item {
    Plain(u32),
    Ident(u32, u32, u32),
}

// The item that begins at i.
pub fn item_at(row: &[u32], marks: &[u32], i: usize) -> Item
    ensures { result ≡ item_at (drop i row.now) (drop i marks.now) }
{
    if row.len() <= i {
        return Item::Plain(0);
    }
    let w = row[i];
    if marks.len() <= i {
        return Item::Plain(w);
    }
    let m = marks[i];
    if m == 0 {
        return Item::Plain(w);
    }
    if row.len() <= i + 1 {
        return Item::Plain(w);
    }
    Item::Ident(m - 1, w, row[i + 1])
}

pub fn size_of(it: Item) -> usize
    ensures { result ≡ size_of it }
{
    match it {
        Item::Plain(w) => 1,
        Item::Ident(k, t, v) => 2,
    }
}

// The words of an item, stored at i.
pub fn put_item(out: &mut [u32], i: usize, it: Item)
    ensures { out.new ≡ store out.old i (words_of it) }
{
    if out.len() <= i {
        return;
    }
    match it {
        Item::Plain(w) => {
            out[i] = w;
        }
        Item::Ident(k, t, v) => {
            out[i] = t;
            if i + 1 < out.len() {
                out[i + 1] = v;
            }
        }
    }
}

// Whether an index that dangles does so by at least lo, and is below hi.
fn item_in(lo: u32, hi: u32, it: Item) -> bool
    ensures { result ≡ item_in lo hi it }
{
    match it {
        Item::Ident(k, t, v) if t == Tag::BOUND_IDENT && k <= v => lo <= v - k && v < hi,
        _ => true,
    }
}

// Whether every word of a row is below hi: one pass to its end, which takes several words at a time.
pub fn all_below(row: &[u32], hi: u32) -> bool
    ensures { result ≡ all_below hi row.now }
{
    row.iter().fold(true, |below, w| below & (*w < hi))
}

// Whether every index that dangles does so by at least lo, and is below hi, looked up item by item.
fn each_in(row: &[u32], marks: &[u32], lo: u32, hi: u32) -> bool
    ensures { result ≡ all_items (item_in lo hi) (items row.now marks.now) }
{
    let mut i = 0;
    while i < row.len() {
        let it = item_at(row, marks, i);
        if !item_in(lo, hi, it) {
            return false;
        }
        i += size_of(it);
    }
    true
}

// The same; where lo is 0 and every word is below hi, no item is looked up.
pub fn all_in(row: &[u32], marks: &[u32], lo: u32, hi: u32) -> bool
    ensures { result ≡ all_items (item_in lo hi) (items row.now marks.now) }
{
    if lo == 0 {
        if all_below(row, hi) {
            return true;
        }
    }
    each_in(row, marks, lo, hi)
}
