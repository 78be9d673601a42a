// Declarations with annotations, of which one is replaced: the others are kept, and those before it join the body's own quantifier where nothing
// stays behind it, the operator is the same and no annotation in the body mentions one of them.
ghost use Rattle.std.specs.Prelude.{◌≡◌, ◌+◌, ◌-◌, ◌<◌, length};
ghost use Rattle.form.specs.Answer.{told, written};
ghost use Rattle.one_point.specs.Internal.Reduce.{Putting, operator_in, decls_in, target_of, placed_outcome};
ghost use Rattle.one_point.specs.Internal.Noted.{Flags};

use crate::joined::{put_inner, put_names};
use crate::kept::put_kept;
use decls::heads::flag_names;
use form::answer::Answer;

// The declaration at place p replaced by the expression and the others kept, or those before it joined with the body's own, by the body's first
// word. `row` has the head's declarations with flags. Called from two places, this stays a function of its own when compiled, so that a row
// without annotations lays out no row for joined heads.
fn put_flagged(
    op: u32,
    head: &[u32],
    row: &[u32],
    p: usize,
    part: &[u32],
    part_marks: &[u32],
    body: &[u32],
    marks: &[u32],
    out: &mut [u32],
) -> Answer
    requires { Putting head.now p part.now part_marks.now body.now marks.now × Flags head.now row.now × (op ≡ operator_in head.now) }
    ensures value { result ≡ told (placed_outcome (operator_in head.now) (decls_in head.now) (target_of head.now p) part.now body.now (length out.old)) }
    ensures out_after { out.new ≡ written (placed_outcome (operator_in head.now) (decls_in head.now) (target_of head.now p) part.now body.now (length out.old)) out.old }
{
    if p == 0 {
        return put_kept(false, head, row, p, part, part_marks, body, marks, out);
    }
    if p + 1 != head[1] as usize {
        return put_kept(false, head, row, p, part, part_marks, body, marks, out);
    }
    if body[0] == op {
        return put_names(head, row, part, part_marks, body, marks, out);
    }
    if body[0] == op + 10 {
        return put_inner(head, row, part, part_marks, body, marks, out);
    }
    put_kept(false, head, row, p, part, part_marks, body, marks, out)
}

// The declarations from place p on: the first replaced by the expression, the others kept, those before it joined with the body's own.
pub(crate) fn put_noted(
    head: &[u32],
    p: usize,
    part: &[u32],
    part_marks: &[u32],
    body: &[u32],
    marks: &[u32],
    out: &mut [u32],
) -> Answer
    requires { Putting head.now p part.now part_marks.now body.now marks.now }
    ensures value { result ≡ told (placed_outcome (operator_in head.now) (decls_in head.now) (target_of head.now p) part.now body.now (length out.old)) }
    ensures out_after { out.new ≡ written (placed_outcome (operator_in head.now) (decls_in head.now) (target_of head.now p) part.now body.now (length out.old)) out.old }
{
    if 860 < head[0] {
        return put_flagged(
            head[0] - 10,
            head,
            head,
            p,
            part,
            part_marks,
            body,
            marks,
            out,
        );
    }
    let mut flags = [0u32; 66];
    let end = flag_names(&head[2..], &mut flags);
    put_flagged(
        head[0],
        head,
        &flags[..end],
        p,
        part,
        part_marks,
        body,
        marks,
        out,
    )
}
