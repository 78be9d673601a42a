// One point's scan of the body: the first equality that is taken, and what is left of the body.
ghost use Rattle.std.specs.Prelude.{◌≡◌, false, ◌+◌, ◌≤◌, length, get_or};
ghost use Rattle.rules.specs.Replacement.{Taken};
ghost use Rattle.rules.specs.Scan.{scan, role_of, junction};
ghost use Rattle.one_point.specs.Internal.Parts.{TookIs};
ghost use Rattle.one_point.specs.Internal.Scans.{Room, Entered, ScanTold, next_scan, SearchedKids};
ghost use Rattle.one_point.specs.Internal.Marks.{Clean, ScanMarks, SearchedMarks};

use crate::children::{Stopped, mark_preds, one_more};
use crate::equality::scan_equality;
use crate::scanned::{Scanned, copy_pred};
use crate::writes::{copy_part, finish_junction, finish_marks, finish_not, finish_twice};
use places::positions::has_tag;
use places::sides::Replacement;
use tree::tag::Tag;

// The predicate at `at`, for n declarations and with a polarity; what is left of it is written at `pos`.
#[cycle(scanners)]
pub(crate) fn scan_pred(
    row: &[u32],
    at: usize,
    depth: u32,
    n: usize,
    positive: bool,
    out: &mut [u32],
    marks: &mut [u32],
    pos: usize,
) -> Option<Scanned>
    requires { Room row.now depth at pos (length out.old) × (n ≤ 32) × Clean row.now at pos marks.old }
    ensures scan_told { ScanTold (scan n positive) row.now depth at pos out.old result out.new }
    ensures scan_marks { ScanMarks (scan n positive) row.now depth at pos marks.old marks.new }
{
    if depth == 0 {
        return None;
    }
    if row.len() <= at {
        return None;
    }
    let tag = row[at];
    if tag == Tag::NOT {
        if has_tag(row, at + 1, Tag::NOT) {
            return scan_twice(row, at, depth, n, positive, out, marks, pos);
        }
        return scan_not(row, at, depth, n, positive, out, marks, pos);
    }
    if positive {
        if tag == Tag::EQUAL {
            return scan_equality(row, at, depth, n, out, marks, pos);
        }
        if tag == Tag::AND {
            return scan_junction(row, at, depth, n, positive, out, marks, pos);
        }
        return copy_pred(row, at, depth, out, marks, pos);
    }
    if tag == Tag::OR {
        return scan_junction(row, at, depth, n, positive, out, marks, pos);
    }
    if tag == Tag::IMPLIES {
        return scan_implies(row, at, depth, n, out, marks, pos);
    }
    copy_pred(row, at, depth, out, marks, pos)
}

// A not: its child with the other polarity, and what is left of it negated.
#[cycle(scanners)]
fn scan_not(
    row: &[u32],
    at: usize,
    depth: u32,
    n: usize,
    positive: bool,
    out: &mut [u32],
    marks: &mut [u32],
    pos: usize,
) -> Option<Scanned>
    requires { Room row.now depth at pos (length out.old) × (n ≤ 32) × Entered row.now depth at × (get_or row.now at 0 ≡ 8) × Clean row.now at pos marks.old }
    ensures scan_told { ScanTold (scan n positive) row.now depth at pos out.old result out.new }
    ensures scan_marks { ScanMarks (scan n positive) row.now depth at pos marks.old marks.new }
{
    let s = scan_pred(row, at + 1, depth - 1, n, !positive, out, marks, pos + 1)?;
    let Some(left) = s.end else {
        return Some(s);
    };
    let end = finish_not(out, marks, pos, left);
    Some(Scanned {
        end: Some(end),
        ..s
    })
}

// Two nots one in the other: their child with the same polarity, and what is left of it negated twice, which mostly is as it stands.
#[cycle(scanners)]
fn scan_twice(
    row: &[u32],
    at: usize,
    depth: u32,
    n: usize,
    positive: bool,
    out: &mut [u32],
    marks: &mut [u32],
    pos: usize,
) -> Option<Scanned>
    requires { Room row.now depth at pos (length out.old) × (n ≤ 32) × Entered row.now depth at × (get_or row.now at 0 ≡ 8) × Clean row.now at pos marks.old × (get_or row.now (at + 1) 0 ≡ 8) }
    ensures scan_told { ScanTold (scan n positive) row.now depth at pos out.old result out.new }
    ensures scan_marks { ScanMarks (scan n positive) row.now depth at pos marks.old marks.new }
{
    if depth < 2 {
        return None;
    }
    let s = scan_pred(row, at + 2, depth - 2, n, positive, out, marks, pos)?;
    let Some(left) = s.end else {
        return Some(s);
    };
    let end = finish_twice(out, marks, pos, left);
    Some(Scanned {
        end: Some(end),
        ..s
    })
}

// What follows a child: copied where the child took an equality, else scanned.
#[cycle(scanners)]
fn scan_next(
    row: &[u32],
    at: usize,
    depth: u32,
    n: usize,
    found: Option<Replacement>,
    out: &mut [u32],
    marks: &mut [u32],
    pos: usize,
) -> Option<Scanned>
    requires { Room row.now depth at pos (length out.old) × (n ≤ 32) × Clean row.now at pos marks.old }
    ensures scan_told { (x : Taken) → TookIs row.now x found → ScanTold (λ f. next_scan x (scan n false f) f) row.now depth at pos out.old result out.new }
    ensures scan_marks { (x : Taken) → TookIs row.now x found → ScanMarks (λ f. next_scan x (scan n false f) f) row.now depth at pos marks.old marks.new }
{
    if found.is_some() {
        let c = copy_pred(row, at, depth, out, marks, pos)?;
        return Some(Scanned { found: found, ..c });
    }
    scan_pred(row, at, depth, n, false, out, marks, pos)
}

// An implication: without its left it is its right, without its right the negated left.
#[cycle(scanners)]
fn scan_implies(
    row: &[u32],
    at: usize,
    depth: u32,
    n: usize,
    out: &mut [u32],
    marks: &mut [u32],
    pos: usize,
) -> Option<Scanned>
    requires { Room row.now depth at pos (length out.old) × (n ≤ 32) × Entered row.now depth at × (get_or row.now at 0 ≡ 251) × Clean row.now at pos marks.old }
    ensures scan_told { ScanTold (scan n false) row.now depth at pos out.old result out.new }
    ensures scan_marks { ScanMarks (scan n false) row.now depth at pos marks.old marks.new }
{
    out[pos] = Tag::IMPLIES;
    let l = scan_pred(row, at + 1, depth - 1, n, true, out, marks, pos + 1)?;
    let start = l.end.unwrap_or(pos);
    let r = scan_next(row, l.next, depth - 1, n, l.found, out, marks, start)?;
    let Some(left) = l.end else {
        return Some(r);
    };
    if r.end.is_some() {
        return Some(r);
    }
    let end = finish_not(out, marks, pos, left);
    Some(Scanned {
        end: Some(end),
        ..r
    })
}

// Children in order; the search stops at the first equality taken. A child that is no predicate sends it to the end of the row, where none of
// the children left is read.
#[cycle(scanners)]
fn search_children(
    row: &[u32],
    at: usize,
    depth: u32,
    n: usize,
    positive: bool,
    count: u32,
    out: &mut [u32],
    marks: &mut [u32],
    pos: usize,
) -> Stopped
    requires { Room row.now depth at pos (length out.old) × (n ≤ 32) × (at ≤ length row.now) × Clean row.now at pos marks.old }
    ensures searched_kids { SearchedKids row.now depth n positive at count pos out.old result out.new }
    ensures searched_marks { SearchedMarks row.now depth n positive at count pos marks.old result marks.new }
{
    let mut s = Stopped {
        found: None,
        next: at,
        left: 0,
        end: pos,
        count: 0,
    };
    for done in 0..count {
        let Some(child) = scan_pred(row, s.next, depth, n, positive, out, marks, s.end) else {
            return Stopped {
                next: row.len(),
                left: count - done,
                ..s
            };
        };
        s.next = child.next;
        s.end = child.end.unwrap_or(s.end);
        s.count = one_more(s.count, child.end);
        if child.found.is_some() {
            return Stopped {
                found: child.found,
                left: count - done - 1,
                ..s
            };
        }
    }
    s
}

// An associative node of what is left of its children.
#[cycle(scanners)]
fn scan_junction(
    row: &[u32],
    at: usize,
    depth: u32,
    n: usize,
    positive: bool,
    out: &mut [u32],
    marks: &mut [u32],
    pos: usize,
) -> Option<Scanned>
    requires { Room row.now depth at pos (length out.old) × (n ≤ 32) × Entered row.now depth at × (role_of (get_or row.now at 0) positive ≡ junction) × Clean row.now at pos marks.old }
    ensures scan_told { ScanTold (scan n positive) row.now depth at pos out.old result out.new }
    ensures scan_marks { ScanMarks (scan n positive) row.now depth at pos marks.old marks.new }
{
    if row.len() <= at + 1 {
        return None;
    }
    let tag = row[at];
    let count = row[at + 1];
    if count < 2 {
        return None;
    }
    let s = search_children(
        row,
        at + 2,
        depth - 1,
        n,
        positive,
        count,
        out,
        marks,
        pos + 2,
    );
    let from = s.next;
    let next = mark_preds(row, from, s.left, depth - 1, marks, s.end)?;
    let end = copy_part(row, from, next, out, s.end);
    let left = finish_junction(out, pos, end, tag, s.count + s.left);
    finish_marks(marks, pos, end, s.count + s.left);
    Some(Scanned {
        next: next,
        found: s.found,
        end: left,
    })
}
