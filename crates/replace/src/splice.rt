// What a plan makes of a row whose marks stand apart, as those of a form do: written word by word, so that only a word that a part of the
// list stands for takes a branch.
ghost use Rattle.std.specs.Prelude.{◌≡◌, true, false, ◌&&◌, ◌+◌, ◌-◌, ◌≤◌, leb, ltb, length, get_or, drop, set, replicate};
ghost use Rattle.tree.specs.Form.{pick};
ghost use Rattle.shift.specs.Internal.Items.{apart, store};
ghost use Rattle.replace.specs.Internal.Job.{Readied, job_size, job_words};
ghost use Rattle.replace.specs.declared.pieces.Target.TheVariants.{Places, Names};
ghost use Rattle.replace.specs.Internal.Splice.{pair_ok, Slots, Keys, key_of, name_spot, Filling, Freeing};

use crate::pieces::{Job, Piece, Target, index_of, one_if, write_piece, write_pieces};
use shift::items::Item;
use shift::slots::slot_of;
use tree::tag::Tag;

// Whether a mark and the one after it can be those of a form under more than lo declarations.
fn pair_ok(lo: u32, m: u32, k: u32) -> bool
    ensures { result ≡ pair_ok lo m k }
{
    (m == 0) | ((lo < m) & (k == 0))
}

// The word at `at`; 0 past the end.
pub(crate) fn word_at(row: &[u32], at: usize) -> u32
    ensures { result ≡ get_or row.now at 0 }
{
    row.get(at).copied().unwrap_or(0)
}

// Whether the marks from `from` on, where words are, stand apart as far as the row goes, and are over lo: one pass that takes several words at a time.
fn are_apart(lo: u32, row: &[u32], marks: &[u32], from: usize) -> bool
    ensures { result ≡ (ltb from (length row.now) && (leb (length row.now) (length marks.now) && apart lo (drop from row.now) (drop from marks.now))) }
{
    if row.len() <= from || marks.len() < row.len() {
        return false;
    }
    let mut apart = true;
    let mut i = from;
    while i + 1 < row.len() {
        apart &= pair_ok(lo, marks[i], marks[i + 1]);
        i += 1;
    }
    apart
}

// The tables of the slots: the word of each place, and how many places inside it are filled.
fn set_slots(words: &[u32], gone: u32, cuts: &mut [u32], falls: &mut [u32])
    requires { (length words.now ≤ 32) × (cuts.old ≡ replicate 34 0) × (falls.old ≡ replicate 34 0) }
    ensures { Slots words.now gone cuts.new falls.new }
{
    let mut s = words.len();
    let mut inside = 0u32;
    while 0 < s {
        cuts[s] = words[s - 1];
        falls[s] = inside;
        inside += one_if(words[s - 1]);
        s -= 1;
    }
    falls[0] = gone;
}

// The words of the job's row with the places of declarations filled, stored at `at`: where they end.
fn write_filled(job: Job, cuts: &[u32], falls: &[u32], out: &mut [u32], at: usize) -> usize
    requires { Filling job cuts.now falls.now at (length out.old) }
    ensures value { result ≡ at + job_size job.entry }
    ensures out_after { out.new ≡ store out.old at (job_words job.entry) }
{
    let row = job.source.row;
    let marks = job.source.marks;
    let table = job.source.table;
    let n = table.n as u32;
    let mut i = job.from;
    let mut p = at;
    let mut word = word_at(row, i);
    while i + 1 < row.len() {
        let slot = slot_of(marks[i], row[i], row[i + 1], n, n + 1);
        if cuts[slot] == 0 {
            out[p] = word;
            word = row[i + 1].saturating_sub(falls[slot]);
            p += 1;
            i += 1;
            continue;
        }
        let s = table.starts[slot - 1];
        let e = table.ends[slot - 1];
        let up = (marks[i] - 1).saturating_sub(job.rule.gone);
        let part = Piece::Part(s, e, up, job.rule.down);
        write_piece(
            job.source.list,
            job.source.list_marks,
            part,
            Item::Plain(0),
            out,
            p,
        );
        p += e - s;
        i += 2;
        word = word_at(row, i);
    }
    write_last(row, i, word, out, p)
}

// The last word, if one is left: where it ends.
fn write_last(row: &[u32], i: usize, word: u32, out: &mut [u32], p: usize) -> usize
    requires { (length row.now ≤ i + 1) × (p + (length row.now - i) ≤ length out.old) }
    ensures value { result ≡ p + (length row.now - i) }
    ensures out_after { out.new ≡ pick (ltb i (length row.now)) (set out.old p word) out.old }
{
    if i < row.len() {
        out[p] = word;
        return p + 1;
    }
    p
}

// The remainder of a name by 64; 64 for any other word.
fn key_of(m: u32, t: u32, v: u32) -> usize
    ensures { result ≡ key_of m t v }
{
    if (t == Tag::FREE_IDENT) & (m != 0) {
        return (v % 64) as usize;
    }
    64
}

// A key for each name, so that most words that are not listed need no search.
fn set_keys(words: &[u32], keys: &mut [u32])
    requires { keys.old ≡ replicate 65 0 }
    ensures { Keys words.now keys.new }
{
    for word in words {
        keys[(*word % 64) as usize] = 1;
    }
}

// Where the name that the word is stands in the list; its length where it is none, or not listed.
fn name_spot(keys: &[u32], words: &[u32], m: u32, t: u32, v: u32) -> usize
    requires { Keys words.now keys.now × (length keys.now ≡ 65) }
    ensures { result ≡ name_spot words.now m t v }
{
    let key = key_of(m, t, v);
    if keys[key] == 0 {
        return words.len();
    }
    index_of(words, v)
}

// The words of the job's row with the listed names replaced, stored at `at`: where they end.
fn write_freed(job: Job, keys: &[u32], out: &mut [u32], at: usize) -> usize
    requires { Freeing job keys.now at (length out.old) }
    ensures value { result ≡ at + job_size job.entry }
    ensures out_after { out.new ≡ store out.old at (job_words job.entry) }
{
    let row = job.source.row;
    let marks = job.source.marks;
    let table = job.source.table;
    let n = table.n;
    let mut i = job.from;
    let mut p = at;
    while i + 1 < row.len() {
        let spot = name_spot(keys, &table.words[..n], marks[i], row[i], row[i + 1]);
        if n <= spot {
            out[p] = row[i];
            p += 1;
            i += 1;
            continue;
        }
        let s = table.starts[spot];
        let e = table.ends[spot];
        let part = Piece::Part(s, e, marks[i] - 1, job.rule.down);
        write_piece(
            job.source.list,
            job.source.list_marks,
            part,
            Item::Plain(0),
            out,
            p,
        );
        p += e - s;
        i += 2;
    }
    write_last(row, i, word_at(row, i), out, p)
}

// What stands for the job's items where places are filled, stored at `at`: where it ends.
fn fill_words(job: Job, out: &mut [u32], at: usize) -> usize
    requires ready { Readied job × (job.rule.target ≡ Places) }
    requires marks_in_bounds { at + job_size job ≤ length out.old }
    ensures value { result ≡ at + job_size job.entry }
    ensures out_after { out.new ≡ store out.old at (job_words job.entry) }
{
    let table = job.source.table;
    if !are_apart(table.n as u32, job.source.row, job.source.marks, job.from) {
        return write_pieces(job, out, at);
    }
    let mut cuts = [0u32; 34];
    let mut falls = [0u32; 34];
    set_slots(
        &table.words[..table.n],
        job.rule.gone,
        &mut cuts,
        &mut falls,
    );
    write_filled(job, &cuts, &falls, out, at)
}

// The same where names are replaced.
fn free_words(job: Job, out: &mut [u32], at: usize) -> usize
    requires ready { Readied job × (job.rule.target ≡ Names) }
    requires marks_in_bounds { at + job_size job ≤ length out.old }
    ensures value { result ≡ at + job_size job.entry }
    ensures out_after { out.new ≡ store out.old at (job_words job.entry) }
{
    if !are_apart(0, job.source.row, job.source.marks, job.from) {
        return write_pieces(job, out, at);
    }
    let table = job.source.table;
    let mut keys = [0u32; 65];
    set_keys(&table.words[..table.n], &mut keys);
    write_freed(job, &keys, out, at)
}

// What stands for the job's items, stored at `at`: where it ends. Marks that do not stand apart are no form's, and are taken item by item.
pub(crate) fn write_spliced(job: Job, out: &mut [u32], at: usize) -> usize
    requires ready { Readied job }
    requires marks_in_bounds { at + job_size job ≤ length out.old }
    ensures value { result ≡ at + job_size job.entry }
    ensures out_after { out.new ≡ store out.old at (job_words job.entry) }
{
    match job.rule.target {
        Target::Places => fill_words(job, out, at),
        Target::Names => free_words(job, out, at),
    }
}
