// The scan of an equality: of one part, or of two pairs that are split.
ghost use Rattle.std.specs.Prelude.{◌≡◌, true, false, ◌+◌, ◌-◌, ◌*◌, ◌≤◌, length, get_or};
ghost use Rattle.rules.specs.Scan.{scan};
ghost use Rattle.one_point.specs.Internal.Scans.{Room, Entered, ScanTold, Sided, SidesTold};
ghost use Rattle.one_point.specs.Internal.Marks.{Clean, ScanMarks, SidesMarks, RestMarks};
ghost use Rattle.places.specs.Internal.Positions.{both_pairs};

use crate::marks::mark_pred;
use crate::parts::{accept, copy_parts, search_parts};
use crate::scanned::Scanned;
use crate::writes::{copy_part, finish_junction};
use places::positions::{both_pairs, skip_expr};
use places::sides::Sides;
use tree::tag::Tag;

// An equality that is one part: it is gone where it is taken, else copied.
fn scan_part(
    row: &[u32],
    at: usize,
    right: usize,
    next: usize,
    n: usize,
    out: &mut [u32],
    marks: &mut [u32],
    pos: usize,
) -> Scanned
    requires { Sided row.now at right next × (both_pairs row.now (at + 1) right ≡ false) × (length row.now ≤ 8192) × (n ≤ 32) × (pos + 2 * (next - at) ≤ length out.old) × (pos ≤ length marks.old) }
    ensures sides_told { SidesTold row.now at right next n pos out.old result out.new }
    ensures sides_marks { SidesMarks row.now at right next n pos marks.old marks.new }
{
    let sides = Sides {
        left: at + 1,
        middle: right,
        right: right,
        end: next,
    };
    let found = accept(row, sides, n);
    if found.is_some() {
        return Scanned {
            next: next,
            found: found,
            end: None,
        };
    }
    let end = copy_part(row, at, next, out, pos);
    mark_pred(row, at, 65, marks, pos);
    Scanned {
        next: next,
        found: None,
        end: Some(end),
    }
}

// The marks of what is left of an equality, if anything is, read where it was written.
fn mark_rest(out: &[u32], pos: usize, left: Option<usize>, marks: &mut [u32])
    requires { (pos ≤ length out.now) × (pos ≤ length marks.old) }
    ensures { RestMarks out.now pos left marks.old marks.new }
{
    if left.is_some() {
        mark_pred(out, pos, 65, marks, pos);
    }
}

// An equality of two pairs: its parts, offered in order.
fn scan_parts(
    row: &[u32],
    at: usize,
    right: usize,
    next: usize,
    n: usize,
    out: &mut [u32],
    marks: &mut [u32],
    pos: usize,
) -> Scanned
    requires { Sided row.now at right next × (length row.now ≤ 8192) × (n ≤ 32) × (pos + 2 * (next - at) ≤ length out.old) × (pos ≤ length marks.old) }
    ensures sides_told { SidesTold row.now at right next n pos out.old result out.new }
    ensures sides_marks { SidesMarks row.now at right next n pos marks.old marks.new }
{
    let s = search_parts(row, at + 1, right, n, out, pos + 2);
    let c = copy_parts(row, s.left, s.right, s.todo, out, s.end, s.count);
    let end = finish_junction(out, pos, c.end, Tag::AND, c.count);
    mark_rest(out, pos, end, marks);
    Scanned {
        next: next,
        found: s.found,
        end: end,
    }
}

// An equality, once both of its sides are read.
pub(crate) fn scan_equality(
    row: &[u32],
    at: usize,
    depth: u32,
    n: usize,
    out: &mut [u32],
    marks: &mut [u32],
    pos: usize,
) -> Option<Scanned>
    requires { Room row.now depth at pos (length out.old) × (n ≤ 32) × Entered row.now depth at × (get_or row.now at 0 ≡ 101) × Clean row.now at pos marks.old }
    ensures scan_told { ScanTold (scan n true) row.now depth at pos out.old result out.new }
    ensures scan_marks { ScanMarks (scan n true) row.now depth at pos marks.old marks.new }
{
    let right = skip_expr(row, at + 1, depth - 1)?;
    let next = skip_expr(row, right, depth - 1)?;
    if both_pairs(row, at + 1, right) {
        return Some(scan_parts(row, at, right, next, n, out, marks, pos));
    }
    Some(scan_part(row, at, right, next, n, out, marks, pos))
}
