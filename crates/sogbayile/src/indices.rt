// The indices that dangle in a form: their set, and lift; exported.
ghost use Rattle.std.specs.Prelude.{◌≡◌, length};
ghost use Rattle.form.specs.Answer.{told, written};
ghost use Rattle.rules.specs.Dangling.{dangling_outcome};
ghost use Rattle.rules.specs.Lift.{lift_part, work_after};
ghost use Rattle.sogbayile.specs.Code.{code_of, part_code};

use crate::code::{code_of, part_code};
use form::answer::Limit;
use subst::dangling::dangling_bound_indices;
use subst::lift::make_copy;

// The dangling set of the form in the row, in rising order.
#[unsafe(no_mangle)]
pub extern "C" fn sgb_dangling(row: &[u32], out: &mut [u32]) -> u64
    ensures value { result ≡ code_of (told (dangling_outcome row.now (length out.old))) }
    ensures out_after { out.new ≡ written (dangling_outcome row.now (length out.old)) out.old }
{
    code_of(dangling_bound_indices(row, out))
}

// The base shifted up by the depth: which row holds it, and its length.
#[unsafe(no_mangle)]
pub extern "C" fn sgb_lift(base: &[u32], depth: u32, work: &mut [u32]) -> u64
    ensures value { result ≡ part_code base.now (lift_part base.now depth (length work.old)) }
    ensures work_after { work.new ≡ work_after (lift_part base.now depth (length work.old)) work.old }
{
    if Limit::WORDS < base.len() {
        return 0;
    }
    let made = make_copy(base, depth, work);
    part_code(base.len(), made)
}
