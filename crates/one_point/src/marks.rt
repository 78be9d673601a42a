// Marks of what is left of a body, made where its words are written.
ghost use Rattle.std.specs.Prelude.{◌≡◌, map, ◌+◌, ◌≤◌, ◌<◌, ◌^◌, length, drop};
ghost use Rattle.std.proofs.Math.Option.{some};
ghost use Rattle.tree.specs.Tag.{pred};
ghost use Rattle.reader.specs.Internal.Reads.{decode_in};
ghost use Rattle.rules.specs.Replacement.{nothing};
ghost use Rattle.rules.specs.Scan.{scanned};
ghost use Rattle.places.specs.Internal.Positions.{end_at};
ghost use Rattle.one_point.specs.Internal.Marks.{MarksTold, raise_mark, CanRaise};

use reader::reader::pred_at;

// Where the predicate at `at` ends; its marks are made from `pos` on.
pub(crate) fn mark_pred(
    row: &[u32],
    at: usize,
    depth: u32,
    marks: &mut [u32],
    pos: usize,
) -> Option<usize>
    requires { pos ≤ length marks.old }
    ensures value { result ≡ end_at at (decode_in depth 0 pred (drop at row.now)) }
    ensures marks_told { MarksTold (λ f. scanned nothing (some f)) pos (decode_in depth 0 pred (drop at row.now)) marks.old marks.new }
{
    if row.len() <= at {
        return None;
    }
    let size = pred_at(&row[at..], &mut marks[pos..], 0, depth, 0)?;
    Some(at + size)
}

// A mark under k more declarations.
fn raise_mark(m: u32, k: u32) -> u32
    requires { m + k < 2 ^ 32 }
    ensures { result ≡ raise_mark k m }
{
    if m == 0 {
        return 0;
    }
    m + k
}

// Marks under k more declarations.
pub(crate) fn raise(marks: &mut [u32], k: u32)
    requires { CanRaise k marks.old }
    ensures { marks.new ≡ map (raise_mark k) marks.old }
{
    for m in marks.iter_mut() {
        *m = raise_mark(*m, k);
    }
}
