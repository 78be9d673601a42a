// The checks of forms and lists, exported.
ghost use Rattle.std.specs.Prelude.{◌≡◌};
ghost use Rattle.form.specs.Answer.{told, check_outcome, names_outcome, pairs_outcome, places_outcome};
ghost use Rattle.form.specs.declared.answer.Kind.TheVariants.{Either, Expression, Predicate};
ghost use Rattle.sogbayile.specs.Code.{code_of};

use crate::code::code_of;
use form::answer::Kind;

// Whether the row is exactly one form.
#[unsafe(no_mangle)]
pub extern "C" fn sgb_check(row: &[u32]) -> u64
    ensures { result ≡ code_of (told (check_outcome Either row.now)) }
{
    code_of(reader::check::check(row, Kind::Either))
}

// Whether the row is exactly one expression.
#[unsafe(no_mangle)]
pub extern "C" fn sgb_check_expression(row: &[u32]) -> u64
    ensures { result ≡ code_of (told (check_outcome Expression row.now)) }
{
    code_of(reader::check::check(row, Kind::Expression))
}

// Whether the row is exactly one predicate.
#[unsafe(no_mangle)]
pub extern "C" fn sgb_check_predicate(row: &[u32]) -> u64
    ensures { result ≡ code_of (told (check_outcome Predicate row.now)) }
{
    code_of(reader::check::check(row, Kind::Predicate))
}

// Whether the row is a list of names to bind.
#[unsafe(no_mangle)]
pub extern "C" fn sgb_check_names(row: &[u32]) -> u64
    ensures { result ≡ code_of (told (names_outcome row.now)) }
{
    code_of(reader::lists::check_names(row))
}

// Whether the row is a list of names, each with its expression.
#[unsafe(no_mangle)]
pub extern "C" fn sgb_check_pairs(row: &[u32]) -> u64
    ensures { result ≡ code_of (told (pairs_outcome row.now)) }
{
    code_of(reader::lists::check_pairs(row))
}

// Whether the row is a list of places for n declarations.
#[unsafe(no_mangle)]
pub extern "C" fn sgb_check_places(row: &[u32], n: u32) -> u64
    ensures { result ≡ code_of (told (places_outcome n row.now)) }
{
    code_of(reader::lists::check_places(row, n))
}
