// A rest of declarations of which the first is replaced, filled in a body, and the declarations before it put round it.
ghost use Rattle.std.specs.Prelude.{◌≡◌, ◌<◌, ◌≤◌, length, get_or};
ghost use Rattle.form.specs.Answer.{told, written};
ghost use Rattle.one_point.specs.Internal.Reduce.{Headed, Putting, is_simple, named_row};
ghost use Rattle.one_point.specs.Internal.Noted.{is_apart, rest_row};

use crate::kept::{one_filled, put_kept};
use crate::noted::put_noted;
use form::answer::Answer;
use replace::instantiate_partial::instantiate_partial;
use replace::pieces::Source;

// The names from place p on: the first replaced by the expression, the others kept. The result is checked as a form where it is not sure to
// be one.
fn put_named(
    tag: u32,
    names: &[u32],
    p: usize,
    sure: bool,
    part: &[u32],
    part_marks: &[u32],
    body: &[u32],
    marks: &[u32],
    out: &mut [u32],
) -> Answer
    requires { (p < length names.now) × (length names.now ≤ 32) }
    ensures value { result ≡ told (named_row sure tag names.now p part.now part_marks.now body.now marks.now (length out.old)) }
    ensures out_after { out.new ≡ written (named_row sure tag names.now p part.now part_marks.now body.now marks.now (length out.old)) out.old }
{
    let n = names.len() - p;
    let table = one_filled(n, part.len());
    let source = Source {
        table: &table,
        list: part,
        list_marks: part_marks,
        row: body,
        marks: marks,
    };
    instantiate_partial(
        tag,
        &names[..p],
        &names[p + 1..],
        source,
        n as u32,
        sure,
        out,
    )
}

// Whether neither the declarations of a head have annotations, nor those of the body's own quantifier where it has the same operator.
fn is_simple(head: &[u32], body: &[u32]) -> bool
    requires { (0 < length head.now) × (0 < length body.now) }
    ensures { result ≡ is_simple head.now body.now }
{
    if 860 < head[0] {
        return false;
    }
    body[0] != head[0] + 10
}

// Whether the declarations of a head with annotations stay apart from the body's own quantifier when the one at p is replaced: none is in front of
// it, one stays behind it, or the body has another operator.
fn is_apart(head: &[u32], p: usize, body: &[u32]) -> bool
    requires { Headed head.now × (0 < length body.now) × (p < get_or head.now 1 0) }
    ensures { result ≡ is_apart head.now p body.now }
{
    if head[0] <= 860 {
        return false;
    }
    if p == 0 {
        return true;
    }
    if p + 1 != head[1] as usize {
        return true;
    }
    if body[0] == head[0] {
        return false;
    }
    body[0] != head[0] - 10
}

// The declarations from place p on: the first replaced by the expression, the others kept. The result is checked as a form where it is
// not sure to be one.
pub(crate) fn put_rest(
    head: &[u32],
    p: usize,
    sure: bool,
    part: &[u32],
    part_marks: &[u32],
    body: &[u32],
    marks: &[u32],
    out: &mut [u32],
) -> Answer
    requires { Putting head.now p part.now part_marks.now body.now marks.now }
    ensures value { result ≡ told (rest_row sure head.now p part.now part_marks.now body.now marks.now (length out.old)) }
    ensures out_after { out.new ≡ written (rest_row sure head.now p part.now part_marks.now body.now marks.now (length out.old)) out.old }
{
    if is_simple(head, body) {
        return put_named(
            head[0],
            &head[2..],
            p,
            sure,
            part,
            part_marks,
            body,
            marks,
            out,
        );
    }
    if is_apart(head, p, body) {
        return put_kept(sure, head, head, p, part, part_marks, body, marks, out);
    }
    put_noted(head, p, part, part_marks, body, marks, out)
}
