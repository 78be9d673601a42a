// The parts of the equality of a comprehension's value and an element, shared out: those that fill a place, and those that are left.
ghost use Rattle.std.specs.Prelude.{◌≡◌, ◌+◌, ◌-◌, ◌<◌, ◌≤◌, length, drop};
ghost use Rattle.rules.specs.Split.{parts};
ghost use Rattle.rules.specs.Partial.{no_places};
ghost use Rattle.places.specs.Internal.Sides.{index_words};
ghost use Rattle.places.specs.Internal.Wrote.{Wrote};
ghost use Rattle.places.specs.Internal.Positions.{Within, parts_at};
ghost use Rattle.member.specs.Internal.Member.{share, no_table, with_place, spot_in, shifted_words, Shared, Sharing, SetOf, BodyTold, MemberingOf};

use crate::member::Membership;
use places::positions::{both_pairs, part_at};
use places::sides::{Sides, index_at};
use reader::lists::Table;
use replace::tables::{put_lifted, put_words};
use tree::tag::Tag;

// The places, where what is written ends, and how many equalities were left.
#[derive(Clone, Copy)]
pub struct Offers {
    pub table: Table,
    pub end: usize,
    pub count: u32,
}

// Places for n declarations, all free.
#[tactic(auto, unfolding(reader::specs::Internal::Reads::empty_table))]
fn no_table(n: usize) -> Table
    ensures { result ≡ no_table n }
{
    Table { n, ..Table::new() }
}

// The place filled by the part from `start` to `end`.
pub(crate) fn fill_place(table: &mut Table, place: usize, start: usize, end: usize)
    requires { place < 32 }
    ensures { table.new ≡ with_place table.old place start end }
{
    table.words[place] = 1;
    table.starts[place] = start;
    table.ends[place] = end;
}

// The free place whose index stands at `at`.
fn spot_in(row: &[u32], at: usize, table: &Table) -> Option<usize>
    requires { table.now.n ≤ 32 }
    ensures { result ≡ spot_in table.now (index_words (drop at row.now)) }
{
    let index = index_at(row, at)? as usize;
    if table.n <= index {
        return None;
    }
    let place = table.n - 1 - index;
    if table.words[place] == 0 {
        Some(place)
    } else {
        None
    }
}

// A part written as an equality, its right side shifted up.
fn write_shifted(
    row: &[u32],
    marks: &[u32],
    sides: Sides,
    up: u32,
    out: &mut [u32],
    pos: usize,
) -> usize
    requires { Within row.now sides × (length row.now ≤ length marks.now) × (pos + 1 + (sides.middle - sides.left) + (sides.end - sides.right) ≤ length out.old) }
    ensures { Wrote pos out.old (shifted_words row.now marks.now up sides) result out.new }
{
    let left = sides.left;
    let middle = sides.middle;
    let right = sides.right;
    let end = sides.end;
    let mid = pos + 1 + (middle - left);
    out[pos] = Tag::EQUAL;
    put_words(&row[left..middle], out, pos + 1);
    put_lifted(&row[right..end], &marks[right..end], up, out, mid);
    mid + (end - right)
}

// The parts of the expressions at `at` and `beside`, offered in order to n places; the equalities of those that are left are written.
fn offer_parts(
    row: &[u32],
    marks: &[u32],
    at: usize,
    beside: usize,
    n: usize,
    up: u32,
    out: &mut [u32],
    pos: usize,
) -> Offers
    requires { Sharing row.now marks.now at beside n up pos (length out.old) }
    ensures { Shared row.now marks.now n up pos out.old 0 (share n (parts_at row.now at beside 1) (no_places n)) result.table result.end result.count out.new }
{
    let mut table = no_table(n);
    let mut p = at;
    let mut q = beside;
    let mut todo: u32 = 1;
    let mut w = pos;
    let mut count: u32 = 0;
    while 0 < todo {
        if both_pairs(row, p, q) {
            p += 1;
            q += 1;
            todo += 1;
            continue;
        }
        let part = part_at(row, p, q);
        p = part.middle;
        q = part.end;
        todo -= 1;
        let Some(place) = spot_in(row, part.left, &table) else {
            w = write_shifted(row, marks, part, up, out, w);
            count += 1;
            continue;
        };
        fill_place(&mut table, place, part.right, part.end);
    }
    Offers {
        table,
        end: w,
        count,
    }
}

// The guard and the equalities that are left, the element shifted up, at the start of the output row.
#[tactic(auto, using(crate::proofs::BodyLaws::positions))]
pub(crate) fn write_body(membership: &Membership, up: u32, out: &mut [u32]) -> Offers
    requires { MemberingOf membership.now (length out.old) × (up ≤ 32) }
    ensures { (x : SetOf membership.now) → BodyTold membership.now.row.now membership.now.marks.now membership.now.set.n up x.guard out.old (share membership.now.set.n (parts x.value x.element) (no_places membership.now.set.n)) result.table result.end out.new }
{
    let Membership { row, marks, set } = *membership;
    let guard = &row[set.guard..set.value];
    let long = set.value - set.guard;
    put_words(guard, out, 2);
    let offers = offer_parts(row, marks, set.value, 1, set.n as usize, up, out, 2 + long);
    if offers.count == 0 {
        put_words(guard, out, 0);
        return Offers {
            end: long,
            ..offers
        };
    }
    out[0] = Tag::AND;
    out[1] = offers.count + 1;
    offers
}
