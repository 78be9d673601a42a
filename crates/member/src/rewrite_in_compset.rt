// Membership: an element in a comprehension becomes an existence, its equalities offered to the places.
ghost use Rattle.std.specs.Prelude.{◌≡◌, ◌≤◌, length, take};
ghost use Rattle.tree.specs.Tag.{pred};
ghost use Rattle.form.specs.Answer.{told, written, finish};
ghost use Rattle.shift.specs.Internal.Items.{Fresh};
ghost use Rattle.rules.specs.Member.{member_of, member_outcome};
ghost use Rattle.places.specs.Internal.Positions.{Cleared};
ghost use Rattle.member.specs.Internal.Member.{SetOf, MemberingOf, Unshifted};

use crate::filling::fill_body;
use crate::member::{Membership, membership_of};
use crate::shares::write_body;
use form::answer::{Answer, Kind, Refusal};
use reader::reader::pred_at;
use replace::pieces::Source;
use shift::marks::with_marks;

// The membership in the row, whose body with the element not shifted stands at the start of the work row. It is marked so, since the
// indices of a shifted element may be above the limit.
#[tactic(auto, using(crate::proofs::BodyLaws::positions))]
fn rewrite_body(
    membership: &Membership,
    end: usize,
    marks: &mut [u32],
    work: &mut [u32],
    out: &mut [u32],
) -> Answer
    requires { MemberingOf membership.now (length work.old) × Unshifted membership.now.row.now membership.now.set end work.old × Cleared (take end work.old) marks.old × (end ≤ length work.old) }
    ensures value { (x : SetOf membership.now) → result ≡ told (finish pred (length out.old) (member_of x.element x.decls x.guard x.value)) }
    ensures out_after { (x : SetOf membership.now) → out.new ≡ written (finish pred (length out.old) (member_of x.element x.decls x.guard x.value)) out.old }
{
    pred_at(&work[..end], marks, 0, 65, membership.set.n).ok_or(Refusal::Broken(0))?;
    let written = write_body(membership, membership.set.n, work);
    let source = Source {
        table: &written.table,
        list: membership.row,
        list_marks: membership.marks,
        row: &work[..written.end],
        marks,
    };
    fill_body(membership.set, &source, out)
}

// The same, with N marks for the body, which lie in a frame of their own.
#[inline(never)]
fn rewrite_sized<const N: usize>(
    membership: &Membership,
    end: usize,
    work: &mut [u32],
    out: &mut [u32],
) -> Answer
    requires { MemberingOf membership.now (length work.old) × Unshifted membership.now.row.now membership.now.set end work.old × (end ≤ length work.old) × (end ≤ N) × (N ≤ 16384) }
    ensures value { (x : SetOf membership.now) → result ≡ told (finish pred (length out.old) (member_of x.element x.decls x.guard x.value)) }
    ensures out_after { (x : SetOf membership.now) → out.new ≡ written (finish pred (length out.old) (member_of x.element x.decls x.guard x.value)) out.old }
{
    let mut marks = [0u32; N];
    rewrite_body(membership, end, &mut marks, work, out)
}

// The membership in the row, with marks for the body, as many as it needs.
fn rewrite_set(membership: &Membership, work: &mut [u32], out: &mut [u32]) -> Answer
    requires { MemberingOf membership.now (length work.old) }
    ensures value { (x : SetOf membership.now) → result ≡ told (finish pred (length out.old) (member_of x.element x.decls x.guard x.value)) }
    ensures out_after { (x : SetOf membership.now) → out.new ≡ written (finish pred (length out.old) (member_of x.element x.decls x.guard x.value)) out.old }
{
    let end = write_body(membership, 0, work).end;
    match end {
        0..=64 => rewrite_sized::<64>(membership, end, work, out),
        65..=512 => rewrite_sized::<512>(membership, end, work, out),
        _ => rewrite_sized::<16384>(membership, end, work, out),
    }
}

// The membership in the row, with marks for the row.
fn rewrite_marked(row: &[u32], marks: &mut [u32], work: &mut [u32], out: &mut [u32]) -> Answer
    requires { Fresh row.now marks.old × (16384 ≤ length work.old) }
    ensures value { result ≡ told (member_outcome row.now (length work.old) (length out.old)) }
    ensures out_after { out.new ≡ written (member_outcome row.now (length work.old) (length out.old)) out.old }
{
    reader::check::mark(row, Kind::Predicate, marks)?;
    let set = membership_of(row).ok_or(Refusal::NothingToRewrite)?;
    let membership = Membership { row, marks, set };
    rewrite_set(&membership, &mut work[..16384], out)
}

// The membership in the row as an existence.
pub fn rewrite_in_compset(row: &[u32], work: &mut [u32], out: &mut [u32]) -> Answer
    ensures value { result ≡ told (member_outcome row.now (length work.old) (length out.old)) }
    ensures out_after { out.new ≡ written (member_outcome row.now (length work.old) (length out.old)) out.old }
{
    if work.len() < 16384 {
        return Err(Refusal::WorkTooShort);
    }
    with_marks(row, out, |marks, out| rewrite_marked(row, marks, work, out)).unwrap_or(Err(
        Refusal::TooLong,
    ))
}
