// How deep a form may be so that it stays within the limits wherever expressions are put into it.
ghost use Rattle.std.specs.Prelude.{◌≡◌, ◌≤◌, length};
ghost use Rattle.replace.specs.Internal.Pieces.{deep_part, deep_at, depth_from, depth_left, deep_parts, depth_left_by};

use reader::lists::Table;
use reader::reader::expr_at;
use shift::items::all_below;

// What leaves room for a replacement: the depths of the form and of the expression are together at most 65, and no word is over
// 63,487 = 65,535 - 2,048.
#[derive(Clone, Copy)]
pub struct Margin {
    pub value: usize,
}

impl Margin {
    pub const DEPTHS: u32 = 65;

    pub const WORDS_BELOW: u32 = 63488;
}

// Whether the row is exactly one expression at most so deep.
fn is_within(row: &[u32], depth: u32) -> bool
    requires { depth ≤ 64 }
    ensures { result ≡ deep_part depth row.now }
{
    let mut marks = [0u32; 1];
    let Some(p) = expr_at(row, &mut marks, 0, depth, 0) else {
        return false;
    };
    p == row.len()
}

// The first of `from` and the depths tried after it (1, 2, 3, 5, 9, 17, 33) within which the row is exactly one expression; 65 where none is.
fn depth_from(row: &[u32], from: u32) -> u32
    ensures { result ≡ depth_from from (λ d. deep_part d row.now) }
{
    let mut d = from;
    while d < Margin::DEPTHS {
        if is_within(row, d) {
            return d;
        }
        d = d + 1 + d.saturating_sub(2);
    }
    Margin::DEPTHS
}

// The same of the words from `start` up to `end`, where there are any.
fn depth_at(start: usize, end: usize, list: &[u32], from: u32) -> u32
    requires { from ≤ 65 }
    ensures { result ≡ depth_from from (λ d. deep_at d start end list.now) }
{
    if end <= start {
        return from;
    }
    if list.len() < end {
        return Margin::DEPTHS;
    }
    depth_from(&list[start..end], from)
}

// The first of 1, 2, 3, 5, 9, 17 and 33 within which each of the table's parts of the list is an expression; 65 where none is.
fn parts_depth(table: &Table, list: &[u32]) -> u32
    requires { table.now.n ≤ 32 }
    ensures { result ≡ depth_from 1 (λ d. deep_parts d table.now.starts table.now.ends table.now.n list.now) }
{
    let mut d = 1;
    for i in 0..table.n {
        d = depth_at(table.starts[i], table.ends[i], list, d);
    }
    d
}

// How deep a form may be that is sure to stay one when the row is put into it; 0 where none is.
pub fn depth_left(row: &[u32]) -> u32
    ensures { result ≡ depth_left row.now }
{
    if !all_below(row, Margin::WORDS_BELOW) {
        return 0;
    }
    Margin::DEPTHS - depth_from(row, 1)
}

// How deep a form may be that is sure to stay one when the table's parts of the list are put into it; 0 where none is.
pub fn depth_left_by(table: &Table, list: &[u32]) -> u32
    ensures { result ≡ depth_left_by table.now list.now }
{
    if Table::LIMIT < table.n {
        return 0;
    }
    if !all_below(list, Margin::WORDS_BELOW) {
        return 0;
    }
    Margin::DEPTHS - parts_depth(table, list)
}
