// The position of the first word at which no row of the kind can go on within the limits, or the row's length.
ghost use Rattle.std.specs.Prelude.{◌≡◌, ◌+◌, ◌≤◌, ◌<◌, length, drop};
ghost use Rattle.form.specs.Break.{parts, never, nothing, rest, least, break_from, break_either, break_at, break_list, entry_next};
ghost use Rattle.broken.specs.Internal.Seeks.{next_due, leaf_entry, quick_entry};

use crate::due::Due;
use crate::seek::{fits, seek, seek_kids};
use form::answer::{Kind, Limit, ListKind};
use form::head::is_leaf;

// Where a row breaks that must have so many predicates and expressions, and nothing after them; a named one must have no index.
fn broken_kids(row: &[u32], preds: u32, exprs: u32, named: bool) -> u32
    requires { least 64 (parts 0 preds exprs) ≤ 8192 }
    ensures { result ≡ break_from named (λ w. never) 0 (rest 64 (parts 0 preds exprs) nothing) row.now }
{
    match seek_kids(row, 0, preds, exprs, Limit::DEPTH, 0, named) {
        Ok(end) => end as u32,
        Err(at) => at as u32,
    }
}

// Where a row breaks as a form of either sort: a row that begins as a predicate begins as no expression.
fn broken_either(row: &[u32], named: bool) -> u32
    ensures { result ≡ break_either named row.now }
{
    let p = broken_kids(row, 1, 0, named);
    if 0 < p {
        return p;
    }
    broken_kids(row, 0, 1, named)
}

// Where a row breaks as a form of the kind.
pub fn broken_at(row: &[u32], kind: Kind) -> u32
    ensures { result ≡ break_at kind row.now }
{
    match kind {
        Kind::Expression => broken_kids(row, 0, 1, false),
        Kind::Predicate => broken_kids(row, 1, 0, false),
        Kind::Either => broken_either(row, false),
        Kind::Named => broken_either(row, true),
    }
}

// What must come after the first word of an entry.
fn entry_due(kind: ListKind, w: u32) -> Due
    ensures { next_due result ≡ entry_next kind w }
{
    match kind {
        ListKind::Pairs => Due::Kids(0, 0, 1),
        ListKind::Places => if w <= 1 {
            Due::Kids(0, 0, w)
        } else {
            Due::Wrong
        },
    }
}

// A word and a name or an index, if they have room.
fn leaf_entry(row: &[u32], at: usize) -> usize
    requires { at ≤ 8192 }
    ensures { result ≡ leaf_entry at (drop (at + 1) row.now) }
{
    if Limit::WORDS < at + 3 {
        return 0;
    }
    if is_leaf(row, at + 1, Limit::DEPTH) {
        return 3;
    }
    0
}

// How many words an entry has that is 0, or a word and a name or an index, the common cases; 0 for any other.
fn quick_entry(row: &[u32], kind: ListKind, at: usize) -> usize
    requires { (at < length row.now) × (at ≤ 8192) }
    ensures { result ≡ quick_entry kind at (drop at row.now) }
{
    match kind {
        ListKind::Pairs => leaf_entry(row, at),
        ListKind::Places => {
            if 1 < row[at] {
                return 0;
            }
            if row[at] == 1 {
                return leaf_entry(row, at);
            }
            if Limit::WORDS <= at {
                return 0;
            }
            1
        }
    }
}

// Where a row breaks as a list of the kind.
pub fn broken_list(row: &[u32], kind: ListKind) -> u32
    ensures { result ≡ break_list kind row.now }
{
    let mut p = 0;
    while p < row.len() {
        let words = quick_entry(row, kind, p);
        if 0 < words {
            p += words;
        } else {
            let due = entry_due(kind, row[p]);
            if !fits(p + 1, Limit::DEPTH, due, 0) {
                return p as u32;
            }
            p = match seek(row, p + 1, due, Limit::DEPTH, 0, false) {
                Ok(end) => end,
                Err(at) => return at as u32,
            };
        }
    }
    p as u32
}
