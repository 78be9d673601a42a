// The set of places, exported as its two arrays and the number of declarations.
ghost use Rattle.std.specs.Prelude.{◌≡◌};
ghost use Rattle.places.specs.Places.{new_of, offer_answer};
ghost use Rattle.sogbayile.specs.Code.{packed, places_of};

use crate::code::refusal_code;
use places::replacements::Replacements;

// The two arrays of the set, stored.
fn store(places: Replacements, starts: &mut [usize; 32], ends: &mut [usize; 32])
    ensures starts_after { starts.new ≡ places.starts }
    ensures ends_after { ends.new ≡ places.ends }
{
    let first = places.starts;
    let past = places.ends;
    *starts = first;
    *ends = past;
}

// An empty set for n declarations.
#[unsafe(no_mangle)]
pub extern "C" fn sgb_places(n: usize, starts: &mut [usize; 32], ends: &mut [usize; 32]) -> u64
    ensures value { result ≡ packed (new_of n).number (new_of n).position }
    ensures starts_after { starts.new ≡ (new_of n).places.starts }
    ensures ends_after { ends.new ≡ (new_of n).places.ends }
{
    match Replacements::new(n) {
        Ok(made) => {
            store(made, starts, ends);
            0
        }
        Err(refused) => {
            store(refused.places, starts, ends);
            refusal_code(refused.refusal)
        }
    }
}

// A predicate row offered to the set; a refusal leaves the set as it is.
#[unsafe(no_mangle)]
pub extern "C" fn sgb_offer(
    n: usize,
    starts: &mut [usize; 32],
    ends: &mut [usize; 32],
    row: &[u32],
) -> u64
    ensures value { result ≡ packed (offer_answer (places_of starts.old ends.old n) row.now).number (offer_answer (places_of starts.old ends.old n) row.now).position }
    ensures starts_after { starts.new ≡ (offer_answer (places_of starts.old ends.old n) row.now).places.starts }
    ensures ends_after { ends.new ≡ (offer_answer (places_of starts.old ends.old n) row.now).places.ends }
{
    let first = *starts;
    let past = *ends;
    let places = Replacements {
        starts: first,
        ends: past,
        n,
    };
    match places.check(row) {
        Ok(after) => {
            store(after, starts, ends);
            0
        }
        Err(refused) => refusal_code(refused.refusal),
    }
}
