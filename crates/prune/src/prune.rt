// Prune: the declarations whose index the body never uses are dropped.
ghost use Rattle.std.specs.Prelude.{◌≡◌, true, ◌+◌, ◌-◌, ◌≤◌, ◌<◌, length, get_or, take, drop, replicate};
ghost use Rattle.form.specs.Decode.{form_of};
ghost use Rattle.form.specs.Answer.{told, written, check_outcome};
ghost use Rattle.reader.specs.Internal.Reads.{Marked};
ghost use Rattle.shift.specs.Internal.Items.{Fresh, items, rewritten, apart, store};
ghost use Rattle.rules.specs.Prune.{prune_outcome};
ghost use Rattle.replace.specs.Internal.Pieces.{kept_head};
ghost use Rattle.decls.specs.Internal.Noted.{noted_head};
ghost use Rattle.prune.specs.Internal.Dropped.{Falls, fallen_words, dropped_outcome, Pruning};

use decls::ends::{body_start, declared};
use decls::heads::write_noted;
use decls::used::clear_used;
use form::answer::{Answer, Kind, Refusal};
use replace::heads::write_head;
use replace::pieces::{less, one_if};
use replace::tables::put_words;
use shift::marks::with_marks;
use shift::slots::slot_of;

// For each slot, how many declarations inside it are dropped.
fn falls_of(words: &[u32]) -> [u32; 33]
    requires { length words.now ≤ 32 }
    ensures made { Falls words.now result }
    ensures len { length result ≡ 33 }
{
    let mut falls = [0u32; 33];
    let mut gone = 0;
    for s in (0..words.len()).rev() {
        gone += one_if(words[s]);
        falls[s] = gone;
    }
    falls
}

// The items of the body with their indices fallen, stored at `at`.
fn write_fallen(
    words: &[u32],
    falls: &[u32],
    body: &[u32],
    marks: &[u32],
    out: &mut [u32],
    at: usize,
)
    requires words_len_bound { (length words.now ≤ 32) × (length words.now < length falls.now) × Falls words.now falls.now }
    requires body_in_bounds { (length body.now ≤ length marks.now) × (0 < length body.now) × (apart (length words.now) body.now marks.now ≡ true) }
    requires at_in_bounds { at + length body.now ≤ length out.old }
    ensures { out.new ≡ store out.old at (rewritten (fallen_words words.now) (items body.now marks.now)) }
{
    let n = words.len() as u32;
    out[at] = body[0];
    for i in 1..body.len() {
        let slot = slot_of(marks[i - 1], body[i - 1], body[i], n, n);
        out[at + i] = less(body[i], falls[slot]);
    }
}

// The quantifier without the declarations whose word is not 0: the head of what is left, and the body with lower indices. NothingToRewrite where
// no word is over 0, OutputTooShort where the output row is shorter.
fn drop_decls(words: &[u32], head: &[u32], body: &[u32], marks: &[u32], out: &mut [u32]) -> Answer
    requires words_len_bound { (length words.now ≤ 32) × (length head.now ≤ 8192) × (length body.now ≤ 8192) }
    requires body_in_bounds { (length body.now ≤ length marks.now) × (0 < length body.now) × (apart (length words.now) body.now marks.now ≡ true) }
    ensures value { result ≡ told (dropped_outcome head.now words.now body.now marks.now (length out.old)) }
    ensures out_after { out.new ≡ written (dropped_outcome head.now words.now body.now marks.now (length out.old)) out.old }
{
    let falls = falls_of(words);
    if falls[0] == 0 {
        return Err(Refusal::NothingToRewrite);
    }
    let n = head.len() + body.len();
    if out.len() < n {
        return Err(Refusal::OutputTooShort);
    }
    put_words(head, out, 0);
    write_fallen(words, &falls, body, marks, out, head.len());
    Ok(n)
}

// The same for a row without annotations, whose head is short.
fn drop_plain(words: &[u32], row: &[u32], marks: &[u32], from: usize, out: &mut [u32]) -> Answer
    requires words_len_bound { (length words.now ≤ 32) × (length row.now ≤ 8192) }
    requires row_in_bounds { (length row.now ≤ length marks.now) × (from < length row.now) × (apart (length words.now) (drop from row.now) (drop from marks.now) ≡ true) }
    ensures value { result ≡ told (dropped_outcome (kept_head words.now row.now 34) words.now (drop from row.now) (drop from marks.now) (length out.old)) }
    ensures out_after { out.new ≡ written (dropped_outcome (kept_head words.now row.now 34) words.now (drop from row.now) (drop from marks.now) (length out.old)) out.old }
{
    let mut head = [0u32; 34];
    let h = write_head(words, row, &mut head);
    drop_decls(words, &head[..h], &row[from..], &marks[from..], out)
}

// The same for a row of at most N words with annotations and this operator, whose head may be as long as the row and lies in a frame of its own.
#[inline(never)]
fn drop_noted<const N: usize>(
    op: u32,
    words: &[u32],
    row: &[u32],
    marks: &[u32],
    from: usize,
    out: &mut [u32],
) -> Answer
    requires words_len_bound { (length words.now ≤ 32) × (length row.now ≤ N) × (N ≤ 8192) }
    requires row_in_bounds { (length row.now ≤ length marks.now) × (from < length row.now) × (apart (length words.now) (drop from row.now) (drop from marks.now) ≡ true) }
    ensures value { result ≡ told (dropped_outcome (noted_head op words.now row.now 8192) words.now (drop from row.now) (drop from marks.now) (length out.old)) }
    ensures out_after { out.new ≡ written (dropped_outcome (noted_head op words.now row.now 8192) words.now (drop from row.now) (drop from marks.now) (length out.old)) out.old }
{
    let mut head = [0u32; N];
    let h = write_noted(op, words, row, &mut head);
    drop_decls(words, &head[..h], &row[from..], &marks[from..], out)
}

// The row without the declarations that the body, which starts at `from`, never uses. What is left is within the limits whenever the row is, so
// it is not checked.
fn drop_unused(row: &[u32], marks: &[u32], n: u32, from: usize, out: &mut [u32]) -> Answer
    requires { Pruning row.now marks.now n from }
    ensures value { result ≡ told (prune_outcome row.now (length out.old)) }
    ensures out_after { out.new ≡ written (prune_outcome row.now (length out.old)) out.old }
{
    let m = n as usize;
    let mut words = [1u32; 33];
    clear_used(row, marks, from, row.len(), n, &mut words[..m + 1]);
    let unused = &words[1..m + 1];
    if row[0] < 860 {
        drop_plain(unused, row, marks, from, out)
    } else if row.len() <= 256 {
        drop_noted::<256>(row[0] - 10, unused, row, marks, from, out)
    } else {
        drop_noted::<8192>(row[0] - 10, unused, row, marks, from, out)
    }
}

// Prune with marks of its own. It stays a function of its own, so that no loop reads the rows through the closure that calls it.
#[inline(never)]
fn prune_in(row: &[u32], marks: &mut [u32], out: &mut [u32]) -> Answer
    requires { Fresh row.now marks.old }
    ensures value { result ≡ told (prune_outcome row.now (length out.old)) }
    ensures out_after { out.new ≡ written (prune_outcome row.now (length out.old)) out.old }
{
    reader::check::mark(row, Kind::Predicate, marks)?;
    let n = declared(row);
    if n == 0 {
        return Err(Refusal::NotQuantified);
    }
    let from = body_start(row, n);
    drop_unused(row, marks, n, from, out)
}

// Drops the declarations that the body never uses.
pub fn remove_unused_decls(row: &[u32], out: &mut [u32]) -> Answer
    ensures value { result ≡ told (prune_outcome row.now (length out.old)) }
    ensures out_after { out.new ≡ written (prune_outcome row.now (length out.old)) out.old }
{
    with_marks(row, out, |marks, out| prune_in(row, marks, out)).unwrap_or(Err(Refusal::TooLong))
}
