// Bind: named free identifiers become indices, ready to be put under a quantifier that declares them.
ghost use Rattle.std.specs.Prelude.{◌≡◌, ◌≤◌, length};
ghost use Rattle.form.specs.Answer.{told, written};
ghost use Rattle.rules.specs.Bind.{bind_outcome};
ghost use Rattle.shift.specs.Internal.Items.{Fresh, items, rewritten, store};
ghost use Rattle.subst.specs.Internal.Binding.{seek_name, bound_item, bound_words, bind_words};

use form::answer::{Answer, Kind, Limit, Refusal};
use shift::items::{Item, all_in, item_at, put_item, size_of};
use shift::marks::with_marks;
use shift::shift::{move_word, top_of};
use tree::tag::Tag;

// How many names follow the one that is sought, where it is there.
fn seek(names: &[u32], m: u32) -> Option<u32>
    requires { length names.now ≤ 32 }
    ensures { result ≡ seek_name names.now m }
{
    let i = names.iter().position(|name| *name == m)?;
    Some((names.len() - 1 - i) as u32)
}

// A name that is found becomes its index, and an index that dangles passes the new declarations.
fn bound_item(names: &[u32], it: Item) -> Item
    requires { length names.now ≤ 32 }
    ensures { result ≡ bound_item names.now it }
{
    let Item::Ident(k, t, v) = it else {
        return it;
    };
    if t == Tag::FREE_IDENT {
        let Some(b) = seek(names, v) else {
            return it;
        };
        return Item::Ident(k, Tag::BOUND_IDENT, move_word(b, 0, k));
    }
    if v < k {
        return it;
    }
    Item::Ident(k, t, move_word(names.len() as u32, 0, v))
}

fn write_bound(row: &[u32], marks: &[u32], names: &[u32], out: &mut [u32])
    requires row_in_bounds { length row.now ≤ length out.old }
    requires names_len_bound { length names.now ≤ 32 }
    ensures { out.new ≡ store out.old 0 (rewritten (bound_words names.now) (items row.now marks.now)) }
{
    let mut i = 0;
    while i < row.len() {
        let it = item_at(row, marks, i);
        put_item(out, i, bound_item(names, it));
        i += size_of(it);
    }
}

fn bind_marked(row: &[u32], marks: &[u32], names: &[u32], out: &mut [u32]) -> Answer
    requires { length names.now ≤ 32 }
    ensures value { result ≡ told (bind_words names.now row.now marks.now (length out.old)) }
    ensures out_after { out.new ≡ written (bind_words names.now row.now marks.now (length out.old)) out.old }
{
    if !all_in(row, marks, 0, top_of(names.len() as u32)) {
        return Err(Refusal::OutOfLimits);
    }
    if out.len() < row.len() {
        return Err(Refusal::OutputTooShort);
    }
    write_bound(row, marks, names, out);
    Ok(row.len())
}

// Bind with marks of its own.
fn bind_in(names: &[u32], row: &[u32], marks: &mut [u32], out: &mut [u32]) -> Answer
    requires { Fresh row.now marks.old }
    ensures value { result ≡ told (bind_outcome names.now row.now (length out.old)) }
    ensures out_after { out.new ≡ written (bind_outcome names.now row.now (length out.old)) out.old }
{
    reader::check::mark(row, Kind::Either, marks)?;
    if Limit::WORDS < names.len() {
        return Err(Refusal::TooLong);
    }
    if !reader::lists::good_names(names) {
        return Err(Refusal::BadNames);
    }
    bind_marked(row, marks, names, out)
}

// Makes indices of the names, the last of them index 0.
pub fn bind_idents(names: &[u32], row: &[u32], out: &mut [u32]) -> Answer
    ensures value { result ≡ told (bind_outcome names.now row.now (length out.old)) }
    ensures out_after { out.new ≡ written (bind_outcome names.now row.now (length out.old)) out.old }
{
    with_marks(row, out, |marks, out| bind_in(names, row, marks, out)).unwrap_or(Err(
        Refusal::TooLong,
    ))
}
