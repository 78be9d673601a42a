// An answer as one number.
ghost use Rattle.std.specs.Prelude.{◌≡◌};
ghost use Rattle.form.specs.Refusal.{number_of, position_of};
ghost use Rattle.sogbayile.specs.Code.{packed, code_of};
ghost use Rattle.sogbayile.specs.Internal.{ShortPart, made_code};

use form::answer::{Answer, Refusal};
use subst::lift::Made;

// The number of a refusal in the upper 32 bits, and its position in the lower ones.
pub fn refusal_code(refusal: Refusal) -> u64
    ensures { result ≡ packed (number_of refusal) (position_of refusal) }
{
    u64::from(refusal.number()) * 4294967296 + u64::from(refusal.position())
}

// The length of an answer, or the number of a refusal in the upper 32 bits and its position in the lower ones.
pub fn code_of(answer: Answer) -> u64
    ensures { result ≡ code_of answer }
{
    match answer {
        Ok(length) => length as u64,
        Err(refusal) => refusal_code(refusal),
    }
}

// The row that holds what lift answers in the upper 32 bits, and its length.
pub(crate) fn part_code(length: usize, made: Option<Made>) -> u64
    requires { ShortPart length made }
    ensures { result ≡ made_code length made }
{
    match made {
        Some(Made::Base) => 4294967296 + (length as u64),
        Some(Made::Copy(n)) => 8589934592 + (n as u64),
        None => 0,
    }
}
