// The dangling indices of a form, ascending and each once.
ghost use Rattle.std.specs.Prelude.{◌≡◌, true, ◌+◌, ◌≤◌, ◌<◌, length};
ghost use Rattle.form.specs.Answer.{told, written};
ghost use Rattle.rules.specs.Dangling.{dangling_outcome};
ghost use Rattle.shift.specs.Internal.Items.{Fresh, items, rewritten, all_items, item_in, store};
ghost use Rattle.subst.specs.Internal.Flags.{index_words, flag_all, flag_words, selected, Flagging, set_words};

use form::answer::{Answer, Kind, Refusal};
use shift::items::{Item, all_in, item_at, size_of};
use shift::marks::with_marks;
use tree::tag::Tag;

// Flags the index of an item that dangles.
fn flag_item(it: Item, flags: &mut [bool])
    ensures { flags.new ≡ flag_all flags.old (index_words it) }
{
    let Item::Ident(k, t, v) = it else {
        return;
    };
    if t == Tag::BOUND_IDENT && k <= v {
        let j = (v - k) as usize;
        if j < flags.len() {
            flags[j] = true;
        }
    }
}

fn flag_items(row: &[u32], marks: &[u32], flags: &mut [bool])
    ensures { flags.new ≡ flag_all flags.old (rewritten index_words (items row.now marks.now)) }
{
    let mut i = 0;
    while i < row.len() {
        let it = item_at(row, marks, i);
        flag_item(it, flags);
        i += size_of(it);
    }
}

fn count_flags(flags: &[bool]) -> usize
    ensures { result ≡ length (selected 0 flags.now) }
{
    let mut n = 0;
    for flag in flags {
        n += usize::from(*flag);
    }
    n
}

// Writes i at n if the flag is set: where the next index goes.
fn put_flag(out: &mut [u32], n: usize, i: u32, flag: bool) -> usize
    requires { n < 65536 }
    ensures value { result ≡ n + length (flag_words 0 flag) }
    ensures out_after { out.new ≡ store out.old n (flag_words i flag) }
{
    if !flag {
        return n;
    }
    if n < out.len() {
        out[n] = i;
    }
    n + 1
}

fn write_flags(flags: &[bool], out: &mut [u32])
    requires { length flags.now ≤ 65536 }
    ensures { out.new ≡ store out.old 0 (selected 0 flags.now) }
{
    let mut n = 0;
    for (i, flag) in flags.iter().enumerate() {
        n = put_flag(out, n, i as u32, *flag);
    }
}

// The set, with a flag for each of the N indices below N, which lie in a frame of their own.
#[inline(never)]
fn set_sized<const N: usize>(row: &[u32], marks: &[u32], out: &mut [u32]) -> Answer
    requires few { N ≤ 65536 }
    requires enough { all_items (item_in 0 N) (items row.now marks.now) ≡ true }
    ensures value { result ≡ told (set_words row.now marks.now (length out.old)) }
    ensures out_after { out.new ≡ written (set_words row.now marks.now (length out.old)) out.old }
{
    let mut flags = [false; N];
    flag_items(row, marks, &mut flags);
    let n = count_flags(&flags);
    if out.len() < n {
        return Err(Refusal::OutputTooShort);
    }
    write_flags(&flags, out);
    Ok(n)
}

// Few flags serve where every number of an index is small.
fn set_marked(row: &[u32], marks: &[u32], out: &mut [u32]) -> Answer
    requires { all_items (item_in 0 65536) (items row.now marks.now) ≡ true }
    ensures value { result ≡ told (set_words row.now marks.now (length out.old)) }
    ensures out_after { out.new ≡ written (set_words row.now marks.now (length out.old)) out.old }
{
    if all_in(row, marks, 0, 64) {
        set_sized::<64>(row, marks, out)
    } else {
        set_sized::<65536>(row, marks, out)
    }
}

// The set with marks of its own. It stays a function of its own, so that no loop reads the rows through the closure that calls it.
#[inline(never)]
fn dangling_in(row: &[u32], marks: &mut [u32], out: &mut [u32]) -> Answer
    requires { Fresh row.now marks.old }
    ensures value { result ≡ told (dangling_outcome row.now (length out.old)) }
    ensures out_after { out.new ≡ written (dangling_outcome row.now (length out.old)) out.old }
{
    reader::check::mark(row, Kind::Either, marks)?;
    set_marked(row, marks, out)
}

// Writes the set of dangling indices of the form in the row.
pub fn dangling_bound_indices(row: &[u32], out: &mut [u32]) -> Answer
    ensures value { result ≡ told (dangling_outcome row.now (length out.old)) }
    ensures out_after { out.new ≡ written (dangling_outcome row.now (length out.old)) out.old }
{
    with_marks(row, out, |marks, out| dangling_in(row, marks, out)).unwrap_or(Err(Refusal::TooLong))
}
