// The lists: names; name and expression in turn; for each declaration 0, or 1 and an expression.
ghost use Rattle.std.specs.Prelude.{◌≡◌, ◌+◌, ◌<◌, length, drop};
ghost use Rattle.std.specs.Option.{unwrap_or, is_some};
ghost use Rattle.form.specs.Lists.{place_entry, entry_of, list_of, distinct, good_names};
ghost use Rattle.form.specs.Answer.{told, names_outcome, pairs_outcome, places_outcome};
ghost use Rattle.reader.specs.Internal.Reads.{ToldEntry, table_of, emptied, empty_table, Listing, good_words};

use crate::reader::mark_child;
use broken::position::broken_list;
use form::answer::{Answer, Limit, ListKind, Refusal};

// The entries of a list: of the first 32 the word, and where its expression starts and ends in the row (at one place where it has
// none); and the number of all.
#[derive(Clone, Copy)]
pub struct Table {
    pub words: [u32; 32],
    pub starts: [usize; 32],
    pub ends: [usize; 32],
    pub n: usize,
}

impl Table {
    pub const LIMIT: usize = 32;

    // A table of no entry.
    pub fn new() -> Table
        ensures { result ≡ empty_table }
    {
        Table {
            words: [0; 32],
            starts: [0; 32],
            ends: [0; 32],
            n: 0,
        }
    }
}

// A place at p, whose word is w: where it ends.
fn place_at(row: &[u32], marks: &mut [u32], p: usize, w: u32) -> Option<usize>
    requires { p < length row.now }
    ensures { ToldEntry p (place_entry w (drop (p + 1) row.now)) marks.old marks.new result }
{
    if w == 0 {
        return Some(p + 1);
    }
    if 1 < w {
        return None;
    }
    mark_child(row, marks, p + 1, Limit::DEPTH, 0)
}

// One entry of a list at p: where it ends.
fn entry_at(row: &[u32], kind: ListKind, marks: &mut [u32], p: usize) -> Option<usize>
    ensures { ToldEntry p (entry_of kind (drop p row.now)) marks.old marks.new result }
{
    if row.len() <= p {
        return None;
    }
    match kind {
        ListKind::Pairs => mark_child(row, marks, p + 1, Limit::DEPTH, 0),
        ListKind::Places => place_at(row, marks, p, row[p]),
    }
}

// The entries of the row, if it is such a list: how many there are, and of the first 32 the word, and where its expression starts and ends.
// What the rows and the marks hold after a refusal is free. The three rows are lent one by one and not as a table, since a check reads one of
// them or none, and a row that is never read costs nothing.
fn read_entries(
    row: &[u32],
    kind: ListKind,
    marks: &mut [u32],
    words: &mut [u32; 32],
    starts: &mut [usize; 32],
    ends: &mut [usize; 32],
) -> Option<usize>
    ensures { Listing (list_of kind row.now) (table_of 0 words.old starts.old ends.old) (table_of (unwrap_or result 0) words.new starts.new ends.new) marks.old marks.new (is_some result) }
{
    let mut n = 0;
    let mut p = 0;
    while p < row.len() {
        let q = entry_at(row, kind, marks, p)?;
        if n < Table::LIMIT {
            words[n] = row[p];
            starts[n] = p + 1;
            ends[n] = q;
        }
        n += 1;
        p = q;
    }
    Some(n)
}

// Whether the row is such a list: its entries stand in the table, in place of what it held, and the names and indices of their expressions
// are marked. What the table and the marks hold after a refusal is free.
pub fn mark_list(row: &[u32], kind: ListKind, marks: &mut [u32], table: &mut Table) -> bool
    ensures { Listing (list_of kind row.now) (emptied table.old) table.new marks.old marks.new result }
{
    let Some(n) = read_entries(
        row,
        kind,
        marks,
        &mut table.words,
        &mut table.starts,
        &mut table.ends,
    ) else {
        return false;
    };
    table.n = n;
    true
}

// Whether no name is over 65,535 and none stands twice.
fn are_distinct(names: &[u32]) -> bool
    ensures { result ≡ distinct names.now }
{
    for (i, name) in names.iter().enumerate() {
        if Limit::NAME < *name {
            return false;
        }
        if names[i + 1..].contains(name) {
            return false;
        }
    }
    true
}

// Whether the names can be bound or substituted: at most 32, none over 65,535, none twice.
pub fn good_names(names: &[u32]) -> bool
    ensures { result ≡ good_names names.now }
{
    names.len() <= Table::LIMIT && are_distinct(names)
}

// The check of a list of names.
pub fn check_names(row: &[u32]) -> Answer
    ensures { result ≡ told (names_outcome row.now) }
{
    if Limit::WORDS < row.len() {
        return Err(Refusal::TooLong);
    }
    if !good_names(row) {
        return Err(Refusal::BadNames);
    }
    Ok(0)
}

// Whether the first n words can be names of one list.
fn good_words(words: &[u32; 32], n: usize) -> bool
    ensures { result ≡ good_words n words.now }
{
    n <= Table::LIMIT && are_distinct(&words[..n])
}

// Whether the words of a table's entries are good names.
pub fn good_table(table: &Table) -> bool
    ensures { result ≡ good_words table.now.n table.now.words }
{
    good_words(&table.words, table.n)
}

// The check of a substitution list.
pub fn check_pairs(row: &[u32]) -> Answer
    ensures { result ≡ told (pairs_outcome row.now) }
{
    if Limit::WORDS < row.len() {
        return Err(Refusal::TooLong);
    }
    let mut marks = [0u32; 1];
    let mut words = [0u32; 32];
    let mut starts = [0usize; 32];
    let mut ends = [0usize; 32];
    let Some(entries) = read_entries(
        row,
        ListKind::Pairs,
        &mut marks,
        &mut words,
        &mut starts,
        &mut ends,
    ) else {
        return Err(Refusal::Broken(broken_list(row, ListKind::Pairs)));
    };
    if !good_words(&words, entries) {
        return Err(Refusal::BadNames);
    }
    Ok(0)
}

// The check of a list of places for n declarations. Places may be missing at its end.
pub fn check_places(row: &[u32], n: u32) -> Answer
    ensures { result ≡ told (places_outcome n row.now) }
{
    if Limit::WORDS < row.len() {
        return Err(Refusal::TooLong);
    }
    let mut marks = [0u32; 1];
    let mut words = [0u32; 32];
    let mut starts = [0usize; 32];
    let mut ends = [0usize; 32];
    let Some(entries) = read_entries(
        row,
        ListKind::Places,
        &mut marks,
        &mut words,
        &mut starts,
        &mut ends,
    ) else {
        return Err(Refusal::Broken(broken_list(row, ListKind::Places)));
    };
    if Limit::DECLARATIONS < n {
        return Err(Refusal::TooManyPlaces);
    }
    if (n as usize) < entries {
        return Err(Refusal::TooManyPlaces);
    }
    Ok(0)
}
