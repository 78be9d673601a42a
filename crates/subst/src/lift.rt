// Lift: a form shifted up by a depth, as a part of one of two lent rows.
ghost use Rattle.std.specs.Prelude.{◌≡◌, length};
ghost use Rattle.rules.specs.Lift.{lift_part, part_words, part_at, work_after};
ghost use Rattle.shift.specs.Internal.Items.{Fresh};
ghost use Rattle.subst.specs.Internal.Lifting.{made_of, chosen, chosen_at};

use form::answer::Kind;
use shift::items::all_in;
use shift::marks::with_marks;
use shift::shift::shift_marked;

// Which part is the answer: all of the base, or the first words of the work row.
#[derive(Clone, Copy)]
pub enum Made {
    Base,
    Copy(usize),
}

// The copy with marks of its own. It stays a function of its own, so that no loop reads the rows through the closure that calls it.
#[inline(never)]
fn copy_in(base: &[u32], depth: u32, marks: &mut [u32], work: &mut [u32]) -> Option<Made>
    requires { Fresh base.now marks.old }
    ensures value { result ≡ made_of (lift_part base.now depth (length work.old)) }
    ensures work_after { work.new ≡ work_after (lift_part base.now depth (length work.old)) work.old }
{
    if !reader::check::mark_form(base, Kind::Either, marks) {
        return None;
    }
    if depth == 0 || all_in(base, marks, 0, 0) {
        return Some(Made::Base);
    }
    let m = shift_marked(base, marks, depth, 0, work).ok()?;
    Some(Made::Copy(m))
}

// Makes the copy, where one is needed and can be had, at the start of the work row; None where no part is the answer.
pub fn make_copy(base: &[u32], depth: u32, work: &mut [u32]) -> Option<Made>
    ensures value { result ≡ made_of (lift_part base.now depth (length work.old)) }
    ensures work_after { work.new ≡ work_after (lift_part base.now depth (length work.old)) work.old }
{
    with_marks(base, work, |marks, work| copy_in(base, depth, marks, work)).flatten()
}

// The choice, which only reads both rows.
fn choose<'a>(base: &'a [u32], work: &'a [u32], made: Option<Made>) -> &'a [u32]
    ensures { (result.now ≡ chosen base.now work.now made) × (result.ref_ptr ≡ chosen_at base.entry.ref_ptr work.entry.ref_ptr made) }
{
    match made {
        Some(Made::Base) => base,
        Some(Made::Copy(n)) if n <= work.len() => &work[..n],
        Some(Made::Copy(_)) => &work[..0],
        None => &base[..0],
    }
}

// The base, or its copy shifted up by the depth at the start of the work row, or the empty part.
pub fn at_depth<'a>(base: &'a [u32], work: &'a mut [u32], depth: u32) -> &'a [u32]
    ensures { (result.now ≡ part_words base.now (lift_part base.now depth (length work.old))) × (result.ref_ptr ≡ part_at base.entry.ref_ptr work.entry.ref_ptr (lift_part base.now depth (length work.old))) }
{
    let made = make_copy(base, depth, work);
    let all = &work[..];
    choose(base, all, made)
}
