// What stands for each name and index of a form, by a plan: itself, an index, or a part of the list row.
ghost use Rattle.std.specs.Prelude.{◌≡◌, [], ◌∷◌, ◌+◌, ◌-◌, ◌≤◌, max, length, drop};
ghost use Rattle.shift.specs.Internal.Items.{items, rewritten, moved_words, store};
ghost use Rattle.replace.specs.Internal.Pieces.{piece_words, piece_size, spot, filled_words, free_piece, fill_piece, piece_of, capped, longest, plan_for, Tabled, Fits};
ghost use Rattle.replace.specs.Internal.Job.{job_plan, Readied, job_size, job_words};

use reader::lists::Table;
use shift::items::{Item, item_at, put_item, size_of};
use shift::shift::move_item;
use tree::tag::Tag;

// The item itself; an index; or the list row's words from a start to an end, their dangling indices moved up and down.
#[derive(Clone, Copy)]
pub enum Piece {
    Same,
    Index(u32),
    Part(usize, usize, u32, u32),
}

// What is replaced, as the definitions speak of it: indices by the places of the table, of which so many are filled, or names by its entries.
// The parts of the list row are moved down by `down`.
#[derive(Clone, Copy)]
pub struct Plan {
    pub table: Table,
    pub fills: bool,
    pub gone: u32,
    pub down: u32,
}

// What is replaced: the places of declarations, or names.
#[derive(Clone, Copy)]
pub enum Target {
    Places,
    Names,
}

// A plan without its table, which is lent beside it.
#[derive(Clone, Copy)]
pub struct Rule {
    pub target: Target,
    pub gone: u32,
    pub down: u32,
}

// A table, the list that it is read from and the row that its expressions are put into, with their marks.
#[derive(Clone, Copy)]
pub struct Source<'a> {
    pub table: &'a Table,
    pub list: &'a [u32],
    pub list_marks: &'a [u32],
    pub row: &'a [u32],
    pub marks: &'a [u32],
}

// What a rule puts for the items of a source's row from `from` on.
#[derive(Clone, Copy)]
pub struct Job<'a> {
    pub rule: Rule,
    pub source: Source<'a>,
    pub from: usize,
}

impl<'a> Job<'a> {
    // How many words the row has from `from` on.
    pub(crate) fn left(self) -> usize
        ensures { result ≡ length self.entry.source.row.now - self.entry.from }
    {
        self.source.row.len().saturating_sub(self.from)
    }
}

pub fn less(a: u32, b: u32) -> u32
    ensures { result ≡ a - b }
{
    a.saturating_sub(b)
}

// Where a name stands first; the length where it does not.
pub(crate) fn index_of(names: &[u32], m: u32) -> usize
    ensures { result ≡ spot m names.now }
{
    names
        .iter()
        .position(|name| *name == m)
        .unwrap_or(names.len())
}

pub fn one_if(w: u32) -> u32
    ensures { result ≡ filled_words (w ∷ []) }
{
    u32::from(w != 0)
}

// How many of the words from `from` on are not 0.
pub(crate) fn filled_from(words: &[u32], from: usize) -> u32
    requires { length words.now ≤ 32 }
    ensures { result ≡ filled_words (drop from words.now) }
{
    let mut n = 0;
    for i in from..words.len() {
        n += one_if(words[i]);
    }
    n
}

fn free_piece(rule: Rule, table: &Table, k: u32, m: u32) -> Piece
    requires { Tabled (plan_for rule table.now) }
    ensures { result ≡ free_piece (plan_for rule table.now) k m }
{
    let n = table.n;
    let i = index_of(&table.words[..n], m);
    if n <= i {
        return Piece::Same;
    }
    Piece::Part(table.starts[i], table.ends[i], k, rule.down)
}

// A dangling index of the body: it falls by the filled places inside its own, or becomes the expression of its place.
fn fill_piece(rule: Rule, table: &Table, k: u32, v: u32) -> Piece
    requires { Tabled (plan_for rule table.now) }
    ensures { result ≡ fill_piece (plan_for rule table.now) k v }
{
    let n = table.n;
    let b = k.saturating_sub(n as u32);
    if v < b {
        return Piece::Same;
    }
    let j = (v - b) as usize;
    if n <= j {
        return Piece::Index(v.saturating_sub(rule.gone));
    }
    let i = n - 1 - j;
    if table.words[i] == 0 {
        return Piece::Index(v.saturating_sub(filled_from(&table.words[..n], i + 1)));
    }
    Piece::Part(
        table.starts[i],
        table.ends[i],
        k.saturating_sub(rule.gone),
        rule.down,
    )
}

fn piece_of(rule: Rule, table: &Table, it: Item) -> Piece
    requires { Tabled (plan_for rule table.now) }
    ensures { result ≡ piece_of (plan_for rule table.now) it }
{
    let Item::Ident(k, t, v) = it else {
        return Piece::Same;
    };
    match rule.target {
        Target::Places => {
            if t == Tag::BOUND_IDENT {
                fill_piece(rule, table, k, v)
            } else {
                Piece::Same
            }
        }
        Target::Names => {
            if t == Tag::FREE_IDENT {
                free_piece(rule, table, k, v)
            } else {
                Piece::Same
            }
        }
    }
}

fn piece_size(piece: Piece, it: Item) -> usize
    ensures { result ≡ piece_size piece it }
{
    match piece {
        Piece::Same => size_of(it),
        Piece::Index(v) => 2,
        Piece::Part(s, e, u, d) => e.saturating_sub(s),
    }
}

// The length of the table's longest part; 2 where none is longer.
pub(crate) fn longest_part(table: &Table) -> usize
    requires { table.now.n ≤ 32 }
    ensures { result ≡ longest table.now.starts table.now.ends table.now.n }
{
    let mut size = 2;
    for i in 0..table.n {
        size = size.max(table.ends[i].saturating_sub(table.starts[i]));
    }
    size
}

// How many words stand for the job's items; 8,193 for any number above 8,192.
pub(crate) fn words_needed(job: Job) -> usize
    requires { Tabled (job_plan job) }
    ensures { result ≡ capped (job_size job.entry) }
{
    let mut n = 0;
    let mut i = job.from;
    while i < job.source.row.len() {
        let it = item_at(job.source.row, job.source.marks, i);
        let Item::Ident(k, t, v) = it else {
            if 8192 <= n {
                return 8193;
            }
            n += 1;
            i += 1;
            continue;
        };
        let size = piece_size(piece_of(job.rule, job.source.table, it), it);
        if 8192 - n < size {
            return 8193;
        }
        n += size;
        i += 2;
    }
    n
}

// The words of a row with its dangling indices moved, stored at `at`.
pub(crate) fn write_part(row: &[u32], marks: &[u32], up: u32, down: u32, out: &mut [u32], at: usize)
    requires { at + length row.now ≤ length out.old }
    ensures { out.new ≡ store out.old at (rewritten (moved_words up down) (items row.now marks.now)) }
{
    let mut i = 0;
    while i < row.len() {
        let it = item_at(row, marks, i);
        put_item(out, at + i, move_item(up, down, it));
        i += size_of(it);
    }
}

pub(crate) fn write_piece(
    list: &[u32],
    list_marks: &[u32],
    piece: Piece,
    it: Item,
    out: &mut [u32],
    at: usize,
)
    requires fits { Fits piece (length list.now) }
    requires list_in_bounds { length list.now ≤ length list_marks.now }
    requires it_in_bounds { at + piece_size piece it ≤ length out.old }
    ensures { out.new ≡ store out.old at (piece_words list.now list_marks.now piece it) }
{
    match piece {
        Piece::Same => {
            put_item(out, at, it);
        }
        Piece::Index(v) => {
            out[at] = 2;
            out[at + 1] = v;
        }
        Piece::Part(s, e, u, d) => {
            write_part(&list[s..e], &list_marks[s..e], u, d, out, at);
        }
    }
}

// What stands for the job's items, stored at `at`: where it ends.
pub(crate) fn write_pieces(job: Job, out: &mut [u32], at: usize) -> usize
    requires ready { Readied job }
    requires marks_in_bounds { at + job_size job ≤ length out.old }
    ensures value { result ≡ at + job_size job.entry }
    ensures out_after { out.new ≡ store out.old at (job_words job.entry) }
{
    let mut i = job.from;
    let mut p = at;
    while i < job.source.row.len() {
        let it = item_at(job.source.row, job.source.marks, i);
        let Item::Ident(k, t, v) = it else {
            put_item(out, p, it);
            p += 1;
            i += 1;
            continue;
        };
        let piece = piece_of(job.rule, job.source.table, it);
        write_piece(job.source.list, job.source.list_marks, piece, it, out, p);
        p += piece_size(piece, it);
        i += 2;
    }
    p
}
