// A body reduced by the equality that its scan takes.
ghost use Rattle.std.specs.Prelude.{◌≡◌, ◌*◌, ◌≤◌, ◌<◌, length, take};
ghost use Rattle.std.specs.Option.{unwrap_or};
ghost use Rattle.form.specs.Answer.{told, written};
ghost use Rattle.one_point.specs.Internal.Reduce.{Placing, Shallow, is_sure, RestMarking, operator_in, decls_in, placed_outcome, rest_words, Reducing, Reading, body_outcome, told_if, written_if};
ghost use Rattle.places.specs.Internal.Positions.{Cleared};

use crate::heads::operator_of;
use crate::marks::raise;
use crate::rest::put_rest;
use crate::scan::scan_pred;
use form::answer::{Answer, Refusal};
use places::positions::skip_pred;
use reader::reader::expr_at;
use replace::small::depth_left;
use tree::tag::Tag;

// How deep a body is read first, so that what is left of it is sure to stay within the limits with a replacement up to 3 deep.
#[derive(Clone, Copy)]
pub struct Depth {
    pub value: usize,
}

impl Depth {
    pub const FIRST: u32 = 61;

    pub const MOST: u32 = 63;
}

// Whether what is left of a body that was read so deep is sure to stay within the limits with the part put into it. Where the depth alone does not
// say so, what is left is read again, as deep as the part allows.
fn is_sure(part: &[u32], rest: &[u32], depth: u32) -> bool
    ensures { result ≡ is_sure depth part.now rest.now }
{
    let left = depth_left(part);
    if depth < left {
        return true;
    }
    if left == 0 {
        return false;
    }
    skip_pred(rest, 0, left - 1).is_some()
}

// The target's place filled in the rest of a body, with its marks; those of the part have a row. The result is checked as a form where it is not sure
// to be one.
fn place(
    head: &[u32],
    target: u32,
    part: &[u32],
    part_marks: &mut [u32],
    rest: &[u32],
    depth: u32,
    marks: &mut [u32],
    out: &mut [u32],
) -> Answer
    requires { Placing head.now target part.now rest.now × Cleared part.now part_marks.old × RestMarking rest.now marks.old × Shallow depth rest.now }
    ensures value { result ≡ told (placed_outcome (operator_in head.now) (decls_in head.now) target part.now rest.now (length out.old)) }
    ensures out_after { out.new ≡ written (placed_outcome (operator_in head.now) (decls_in head.now) target part.now rest.now (length out.old)) out.old }
{
    expr_at(part, part_marks, 0, Depth::MOST, 0);
    let sure = is_sure(part, rest, depth);
    raise(marks, target + 1);
    let p = (head[1] - 1 - target) as usize;
    put_rest(head, p, sure, part, part_marks, rest, marks, out)
}

// Where what is left of a body ends; an emptied body becomes true under 852 and false under 851.
fn rest_end(tag: u32, left: Option<usize>, work: &mut [u32]) -> usize
    requires { 1 ≤ length work.old }
    ensures value { result ≡ unwrap_or left 1 }
    ensures work_after { take result work.new ≡ rest_words tag left work.old }
{
    if let Some(end) = left {
        return end;
    }
    work[0] = if tag == Tag::EXISTS {
        Tag::TRUE
    } else {
        Tag::FALSE
    };
    1
}

// The body of a quantifier with this head, read so deep and reduced by the first equality that its scan takes; nothing where it is no predicate so
// deep. The marks of what is left of it, and those of the replacement, have rows.
fn reduce_in(
    head: &[u32],
    body: &[u32],
    depth: u32,
    work: &mut [u32],
    marks: &mut [u32],
    part_marks: &mut [u32],
    out: &mut [u32],
) -> Option<Answer>
    requires { Reducing head.now body.now (length work.old) × Reading depth body.now marks.old × Cleared body.now part_marks.old }
    ensures value { result ≡ told_if (body_outcome depth (operator_in head.now) (decls_in head.now) body.now (length out.old)) }
    ensures out_after { out.new ≡ written_if (body_outcome depth (operator_in head.now) (decls_in head.now) body.now (length out.old)) out.old }
{
    let tag = operator_of(head);
    let n = head[1] as usize;
    let exists = tag == Tag::EXISTS;
    let s = scan_pred(body, 0, depth, n, exists, work, marks, 0)?;
    if s.next != body.len() {
        return None;
    }
    let Some(part) = s.found else {
        return Some(Err(Refusal::NothingToRewrite));
    };
    let stop = rest_end(tag, s.end, work);
    Some(place(
        head,
        part.target,
        &body[part.start..part.end],
        part_marks,
        &work[..stop],
        depth,
        &mut marks[..stop],
        out,
    ))
}

// The body reduced as `reduce_in` says: a body of P words at most, of which at most M words are left.
fn reduce_with<const M: usize, const P: usize>(
    head: &[u32],
    body: &[u32],
    depth: u32,
    work: &mut [u32],
    out: &mut [u32],
) -> Option<Answer>
    requires { Reducing head.now body.now (length work.old) × (0 < depth) × (depth ≤ 63) × (length body.now ≤ P) × (2 * P ≤ M) × (M ≤ 16384) }
    ensures value { result ≡ told_if (body_outcome depth (operator_in head.now) (decls_in head.now) body.now (length out.old)) }
    ensures out_after { out.new ≡ written_if (body_outcome depth (operator_in head.now) (decls_in head.now) body.now (length out.old)) out.old }
{
    let mut marks = [0u32; M];
    let mut part_marks = [0u32; P];
    reduce_in(head, body, depth, work, &mut marks, &mut part_marks, out)
}

// The body of a quantifier, read so deep and reduced, with rows as long as its length needs.
fn reduce_at(
    head: &[u32],
    body: &[u32],
    depth: u32,
    work: &mut [u32],
    out: &mut [u32],
) -> Option<Answer>
    requires { Reducing head.now body.now (length work.old) × (0 < depth) × (depth ≤ 63) }
    ensures value { result ≡ told_if (body_outcome depth (operator_in head.now) (decls_in head.now) body.now (length out.old)) }
    ensures out_after { out.new ≡ written_if (body_outcome depth (operator_in head.now) (decls_in head.now) body.now (length out.old)) out.old }
{
    if body.len() <= 1024 {
        return reduce_with::<2048, 1024>(head, body, depth, work, out);
    }
    if body.len() <= 4096 {
        return reduce_with::<8192, 4096>(head, body, depth, work, out);
    }
    reduce_with::<16384, 8192>(head, body, depth, work, out)
}

// The body of a quantifier, read to a small depth first, and to the full depth where it is deeper than that.
fn reduce_long(head: &[u32], body: &[u32], work: &mut [u32], out: &mut [u32]) -> Option<Answer>
    requires { Reducing head.now body.now (length work.old) }
    ensures value { result ≡ told_if (body_outcome 63 (operator_in head.now) (decls_in head.now) body.now (length out.old)) }
    ensures out_after { out.new ≡ written_if (body_outcome 63 (operator_in head.now) (decls_in head.now) body.now (length out.old)) out.old }
{
    if let Some(answer) = reduce_at(head, body, Depth::FIRST, work, out) {
        return Some(answer);
    }
    reduce_at(head, body, Depth::MOST, work, out)
}

// The body of a quantifier, of at most P words, reduced with small rows where it is not deep.
fn reduce_short<const M: usize, const P: usize>(
    head: &[u32],
    body: &[u32],
    work: &mut [u32],
    out: &mut [u32],
) -> Option<Answer>
    requires { Reducing head.now body.now (length work.old) × (length body.now ≤ P) × (2 * P ≤ M) × (M ≤ 16384) }
    ensures value { result ≡ told_if (body_outcome 63 (operator_in head.now) (decls_in head.now) body.now (length out.old)) }
    ensures out_after { out.new ≡ written_if (body_outcome 63 (operator_in head.now) (decls_in head.now) body.now (length out.old)) out.old }
{
    if let Some(answer) = reduce_with::<M, P>(head, body, Depth::FIRST, work, out) {
        return Some(answer);
    }
    reduce_long(head, body, work, out)
}

// The body of a quantifier with this head, reduced by the first equality that its scan takes; nothing where it is no predicate. Short bodies stand
// apart, so that their call lays out no row for long ones.
pub(crate) fn reduce(
    head: &[u32],
    body: &[u32],
    work: &mut [u32],
    out: &mut [u32],
) -> Option<Answer>
    requires { Reducing head.now body.now (length work.old) }
    ensures value { result ≡ told_if (body_outcome 63 (operator_in head.now) (decls_in head.now) body.now (length out.old)) }
    ensures out_after { out.new ≡ written_if (body_outcome 63 (operator_in head.now) (decls_in head.now) body.now (length out.old)) out.old }
{
    if body.len() <= 64 {
        return reduce_short::<128, 64>(head, body, work, out);
    }
    if body.len() <= 256 {
        return reduce_short::<512, 256>(head, body, work, out);
    }
    reduce_long(head, body, work, out)
}
