// Children of an associative node: those that are copied, and where a search among them stopped.
ghost use Rattle.std.specs.Prelude.{◌≡◌, ◌+◌, ◌-◌, ◌≤◌, ◌<◌, length};
ghost use Rattle.one_point.specs.Internal.Scans.{read_kids, end_of_all, one_more};
ghost use Rattle.one_point.specs.Internal.Marks.{KidsMarked};

use crate::marks::mark_pred;
use places::sides::Replacement;

// What a search took, where it stopped in the row and how many children are left there, and what was written.
#[derive(Clone, Copy)]
pub struct Stopped {
    pub found: Option<Replacement>,
    pub next: usize,
    pub left: u32,
    pub end: usize,
    pub count: u32,
}

// The count of written children, one more where something is left of a child.
pub(crate) fn one_more(k: u32, left: Option<usize>) -> u32
    requires { k < 4294967295 }
    ensures { result ≡ one_more k left }
{
    match left {
        Some(_) => k + 1,
        None => k,
    }
}

// Where n predicates end; their marks are made from `pos` on.
pub(crate) fn mark_preds(
    row: &[u32],
    at: usize,
    n: u32,
    depth: u32,
    marks: &mut [u32],
    pos: usize,
) -> Option<usize>
    requires { (depth ≤ 64) × (pos + (length row.now - at) ≤ length marks.old) }
    ensures value { result ≡ end_of_all at (read_kids row.now depth at n) }
    ensures kids_marked { KidsMarked row.now depth at n pos marks.old marks.new }
{
    let mut p = at;
    for _ in 0..n {
        let q = mark_pred(row, p, depth, marks, pos + (p - at))?;
        p = q;
    }
    Some(p)
}
