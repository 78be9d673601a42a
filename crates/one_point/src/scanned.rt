// What the scan answers of a predicate, of one that is none, and of one that it does not enter.
ghost use Rattle.std.specs.Prelude.{length};
ghost use Rattle.std.proofs.Math.Option.{some};
ghost use Rattle.rules.specs.Replacement.{nothing};
ghost use Rattle.rules.specs.Scan.{scanned};
ghost use Rattle.one_point.specs.Internal.Scans.{Room, ScanTold};
ghost use Rattle.one_point.specs.Internal.Marks.{Clean, ScanMarks};

use crate::marks::mark_pred;
use crate::writes::copy_part;
use places::sides::Replacement;

// Of a predicate that was read: where it ends in the row, the equality taken, and where what is left of it ends in the output, if anything is.
#[derive(Clone, Copy)]
pub struct Scanned {
    pub next: usize,
    pub found: Option<Replacement>,
    pub end: Option<usize>,
}

// A predicate that the scan does not enter.
pub(crate) fn copy_pred(
    row: &[u32],
    at: usize,
    depth: u32,
    out: &mut [u32],
    marks: &mut [u32],
    pos: usize,
) -> Option<Scanned>
    requires { Room row.now depth at pos (length out.old) × Clean row.now at pos marks.old }
    ensures scan_told { ScanTold (λ f. scanned nothing (some f)) row.now depth at pos out.old result out.new }
    ensures scan_marks { ScanMarks (λ f. scanned nothing (some f)) row.now depth at pos marks.old marks.new }
{
    let next = mark_pred(row, at, depth, marks, pos)?;
    let end = copy_part(row, at, next, out, pos);
    Some(Scanned {
        next: next,
        found: None,
        end: Some(end),
    })
}
