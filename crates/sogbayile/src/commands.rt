// The commands, exported. Made by crates/sogbayile/commands.py.
ghost use Rattle.std.specs.Prelude.{◌≡◌, length};
ghost use Rattle.form.specs.Answer.{told, written};
ghost use Rattle.rules.specs.Command.{outcome_of};
ghost use Rattle.rules.specs.Shift.{shift_outcome};
ghost use Rattle.rules.specs.Free.{free_outcome};
ghost use Rattle.rules.specs.Bind.{bind_outcome};
ghost use Rattle.rules.specs.Fill.{fill_outcome};
ghost use Rattle.rules.specs.Prune.{prune_outcome};
ghost use Rattle.rules.specs.Point.{point_outcome};
ghost use Rattle.rules.specs.Member.{member_outcome};
ghost use Rattle.rules.specs.Named.{named_outcome};
ghost use Rattle.sogbayile.specs.Code.{code_of};

use crate::code::code_of;
use listed::fill::instantiate;
use listed::free::substitute_free_idents;
use member::rewrite_in_compset::rewrite_in_compset;
use named::named::to_indices;
use one_point::one_point_inference::one_point_inference;
use prune::prune::remove_unused_decls;
use rules::command::Command;
use shift::shift::shift_bound_identifiers;
use subst::bind::bind_idents;

// Adds the offset to each dangling index.
#[unsafe(no_mangle)]
pub extern "C" fn sgb_shift(row: &[u32], offset: i32, out: &mut [u32]) -> u64
    ensures value { result ≡ code_of (told (shift_outcome row.now offset (length out.old))) }
    ensures out_after { out.new ≡ written (shift_outcome row.now offset (length out.old)) out.old }
{
    code_of(shift_bound_identifiers(row, offset, out))
}

// Puts the expressions of the list (name, expression, name, expression ..), lifted by the depth, for the free names of the list.
#[unsafe(no_mangle)]
pub extern "C" fn sgb_free(list: &[u32], row: &[u32], work: &mut [u32], out: &mut [u32]) -> u64
    ensures value { result ≡ code_of (told (free_outcome list.now row.now (length work.old) (length out.old))) }
    ensures out_after { out.new ≡ written (free_outcome list.now row.now (length work.old) (length out.old)) out.old }
{
    code_of(substitute_free_idents(list, row, work, out))
}

// Makes the names indices that dangle, the last name index 0.
#[unsafe(no_mangle)]
pub extern "C" fn sgb_bind(names: &[u32], row: &[u32], out: &mut [u32]) -> u64
    ensures value { result ≡ code_of (told (bind_outcome names.now row.now (length out.old))) }
    ensures out_after { out.new ≡ written (bind_outcome names.now row.now (length out.old)) out.old }
{
    code_of(bind_idents(names, row, out))
}

// Puts the expressions of the list for the declarations of the quantified predicate.
#[unsafe(no_mangle)]
pub extern "C" fn sgb_fill(list: &[u32], row: &[u32], work: &mut [u32], out: &mut [u32]) -> u64
    ensures value { result ≡ code_of (told (fill_outcome list.now row.now (length work.old) (length out.old))) }
    ensures out_after { out.new ≡ written (fill_outcome list.now row.now (length work.old) (length out.old)) out.old }
{
    code_of(instantiate(list, row, work, out))
}

// Drops the declarations that the body never uses, with their annotations; an annotation is no use.
#[unsafe(no_mangle)]
pub extern "C" fn sgb_prune(row: &[u32], out: &mut [u32]) -> u64
    ensures value { result ≡ code_of (told (prune_outcome row.now (length out.old))) }
    ensures out_after { out.new ≡ written (prune_outcome row.now (length out.old)) out.old }
{
    code_of(remove_unused_decls(row, out))
}

// Reduces a quantified predicate by the first equality that its body offers.
#[unsafe(no_mangle)]
pub extern "C" fn sgb_point(row: &[u32], work: &mut [u32], out: &mut [u32]) -> u64
    ensures value { result ≡ code_of (told (point_outcome row.now (length work.old) (length out.old))) }
    ensures out_after { out.new ≡ written (point_outcome row.now (length work.old) (length out.old)) out.old }
{
    code_of(one_point_inference(row, work, out))
}

// Turns an element of a comprehension (107 with 803 or 873 on its right) into an existence, filled as far as its equalities fix it.
#[unsafe(no_mangle)]
pub extern "C" fn sgb_member(row: &[u32], work: &mut [u32], out: &mut [u32]) -> u64
    ensures value { result ≡ code_of (told (member_outcome row.now (length work.old) (length out.old))) }
    ensures out_after { out.new ≡ written (member_outcome row.now (length work.old) (length out.old)) out.old }
{
    code_of(rewrite_in_compset(row, work, out))
}

// Reads a form in which each occurrence is a name.
#[unsafe(no_mangle)]
pub extern "C" fn sgb_named(row: &[u32], out: &mut [u32]) -> u64
    ensures value { result ≡ code_of (told (named_outcome row.now (length out.old))) }
    ensures out_after { out.new ≡ written (named_outcome row.now (length out.old)) out.old }
{
    code_of(to_indices(row, out))
}

// Any command. One that takes no offset, no list or no work row does not look at it.
pub(crate) fn run_command(
    command: Command,
    offset: i32,
    list: &[u32],
    row: &[u32],
    work: &mut [u32],
    out: &mut [u32],
) -> u64
    ensures value { result ≡ code_of (told (outcome_of command offset list.now row.now (length work.old) (length out.old))) }
    ensures out_after { out.new ≡ written (outcome_of command offset list.now row.now (length work.old) (length out.old)) out.old }
{
    match command {
        Command::Shift => sgb_shift(row, offset, out),
        Command::Free => sgb_free(list, row, work, out),
        Command::Bind => sgb_bind(list, row, out),
        Command::Fill => sgb_fill(list, row, work, out),
        Command::Prune => sgb_prune(row, out),
        Command::Point => sgb_point(row, work, out),
        Command::Member => sgb_member(row, work, out),
        Command::Named => sgb_named(row, out),
    }
}
