// The set of places lent to the offers that alter it.
#![tactic(auto)]

ghost use Rattle.std.specs.Prelude.{◌≡◌};
ghost use Rattle.places.specs.Places.{offer_result, offer_answer, or_kept};
ghost use Rattle.offers.specs.Offers.{then_offer, offer_two, left_by, told_two};

use form::answer::Refusal;
pub use places::replacements::Refused;
use places::replacements::Replacements;

// A predicate row offered to the lent set; a refusal leaves the set as it is.
pub fn offer(places: &mut Replacements, row: &[u32]) -> Result<(), Refusal>
    ensures value { left_by places.new result ≡ offer_answer places.old row.now }
    ensures places_after { places.new ≡ (offer_answer places.old row.now).places }
{
    match places.check(row) {
        Ok(offered) => {
            *places = offered;
            Ok(())
        }
        Err(refused) => Err(refused.refusal),
    }
}

// A set by value, lent to one offer; a refusal is answered with the set that it left.
pub fn offer_once(places: Replacements, row: &[u32]) -> Result<Replacements, Refused>
    ensures { result ≡ or_kept places (offer_result places row.now) }
{
    let mut lent = places;
    match offer(&mut lent, row) {
        Ok(()) => Ok(lent),
        Err(refusal) => Err(Refused {
            places: lent,
            refusal,
        }),
    }
}

// Two rows offered in turn to the lent set, up to the first refusal.
fn offer_both(places: &mut Replacements, first: &[u32], second: &[u32]) -> Result<(), Refusal>
    ensures { left_by places.new result ≡ then_offer (offer_answer places.old first.now) second.now }
{
    offer(places, first)?;
    offer(places, second)
}

// Two rows offered in turn to a new set for n declarations; a refusal is answered with the set that it left.
pub fn offer_two(n: usize, first: &[u32], second: &[u32]) -> Result<Replacements, Refused>
    ensures { told_two result ≡ offer_two n first.now second.now }
{
    let mut places = Replacements::new(n)?;
    match offer_both(&mut places, first, second) {
        Ok(()) => Ok(places),
        Err(refusal) => Err(Refused {
            places: places,
            refusal: refusal,
        }),
    }
}
