// An equality of two pairs, split as deep as both sides are pairs: its parts, offered in order.
ghost use Rattle.std.specs.Prelude.{◌≡◌, ◌+◌, ◌-◌, ◌<◌, ◌≤◌, length};
ghost use Rattle.places.specs.Internal.Wrote.{Wrote};
ghost use Rattle.places.specs.Internal.Positions.{Beside, Within, parts_at};
ghost use Rattle.one_point.specs.Internal.Parts.{accept_words, equal_words, PartsCopied, Searched};

use crate::writes::copy_part;
use places::positions::{both_pairs, part_at};
use places::sides::{Replacement, Sides, is_above, match_replacement};
use tree::tag::Tag;

// Where the written parts end, and how many there are.
#[derive(Clone, Copy)]
pub struct Written {
    pub end: usize,
    pub count: u32,
}

// Where the search of the parts stopped: what it took, the positions and the number of the parts that are left, and what was written.
#[derive(Clone, Copy)]
pub struct Search {
    pub found: Option<Replacement>,
    pub left: usize,
    pub right: usize,
    pub todo: u32,
    pub end: usize,
    pub count: u32,
}

// The rule of Places for n declarations, with all places free.
pub(crate) fn accept(row: &[u32], sides: Sides, n: usize) -> Option<Replacement>
    requires { (n ≤ 32) × (length row.now ≤ 8192) × Within row.now sides }
    ensures { result ≡ accept_words n sides row.now }
{
    let part = match_replacement(row, sides)?;
    if n <= part.target as usize {
        return None;
    }
    if !is_above(&row[part.start..part.end], part.target) {
        return None;
    }
    Some(part)
}

// A part written as an equality.
fn write_equal(row: &[u32], sides: Sides, out: &mut [u32], pos: usize) -> usize
    requires { Within row.now sides × (pos + 1 + (sides.middle - sides.left) + (sides.end - sides.right) ≤ length out.old) }
    ensures { Wrote pos out.old (equal_words row.now sides) result out.new }
{
    out[pos] = Tag::EQUAL;
    let middle = copy_part(row, sides.left, sides.middle, out, pos + 1);
    copy_part(row, sides.right, sides.end, out, middle)
}

// The parts of the expressions at p and q, copied.
pub(crate) fn copy_parts(
    row: &[u32],
    at: usize,
    beside: usize,
    n: u32,
    out: &mut [u32],
    pos: usize,
    k: u32,
) -> Written
    requires { Beside row.now at beside n pos k (length out.old) × (length row.now ≤ 8192) }
    ensures { PartsCopied (parts_at row.now at beside n) pos out.old k result.end result.count out.new }
{
    let mut p = at;
    let mut q = beside;
    let mut todo = n;
    let mut w = pos;
    let mut count = k;
    while 0 < todo {
        if both_pairs(row, p, q) {
            p += 1;
            q += 1;
            todo += 1;
            continue;
        }
        let part = part_at(row, p, q);
        w = write_equal(row, part, out, w);
        count += 1;
        p = part.middle;
        q = part.end;
        todo -= 1;
    }
    Written {
        end: w,
        count: count,
    }
}

// The parts of the equality whose sides stand at `at` and `beside`, offered in order for n declarations; those that are passed are written.
pub(crate) fn search_parts(
    row: &[u32],
    at: usize,
    beside: usize,
    n: usize,
    out: &mut [u32],
    pos: usize,
) -> Search
    requires { Beside row.now at beside 1 pos 0 (length out.old) × (length row.now ≤ 8192) × (n ≤ 32) }
    ensures { Searched row.now n at beside pos out.old result out.new }
{
    let mut found = None;
    let mut p = at;
    let mut q = beside;
    let mut todo: u32 = 1;
    let mut w = pos;
    let mut count: u32 = 0;
    'search: while 0 < todo {
        if both_pairs(row, p, q) {
            p += 1;
            q += 1;
            todo += 1;
            continue;
        }
        let part = part_at(row, p, q);
        let offered = accept(row, part, n);
        p = part.middle;
        q = part.end;
        todo -= 1;
        if offered.is_some() {
            found = offered;
            break 'search;
        }
        w = write_equal(row, part, out, w);
        count += 1;
    }
    Search {
        found: found,
        left: p,
        right: q,
        todo: todo,
        end: w,
        count: count,
    }
}
