// The set of places: for each declaration, where its replacement starts and ends in the row that offered it.
ghost use Rattle.std.specs.Prelude.{◌≡◌, ◌≤◌, length, Err};
ghost use Rattle.places.specs.Places.{empty_for, new_result, offer_result, or_kept};
ghost use Rattle.places.specs.Internal.Sides.{offer_part};

use crate::sides::{Replacement, equality_of, is_above, match_replacement};
use broken::position::broken_at;
use form::answer::{Kind, Limit, Refusal};

// Places for n declarations, the first declaration's first; an end of 0 is a free place.
#[derive(Clone, Copy)]
pub struct Replacements {
    pub starts: [usize; Replacements::LIMIT],
    pub ends: [usize; Replacements::LIMIT],
    pub n: usize,
}

// What a refusal leaves, and why: the set as it was, or the one for no declarations where a new set is refused.
#[derive(Clone, Copy)]
pub struct Refused {
    pub places: Replacements,
    pub refusal: Refusal,
}

impl Replacements {
    pub const LIMIT: usize = 32;

    // A set for so many declarations, of which no place is filled.
    pub fn free(n: usize) -> Replacements
        ensures { result ≡ empty_for n }
    {
        Replacements {
            starts: [0; Self::LIMIT],
            ends: [0; Self::LIMIT],
            n: n,
        }
    }

    // The same, for no more declarations than there are places; where it is refused, the set is the one for none.
    pub fn new(n: usize) -> Result<Replacements, Refused>
        ensures { result ≡ or_kept (empty_for 0) (new_result n) }
    {
        if Self::LIMIT < n {
            return Self::free(0).refused(Refusal::TooManyPlaces);
        }
        Ok(Self::free(n))
    }

    // The refusal, with the set as it is.
    fn refused(self, refusal: Refusal) -> Result<Replacements, Refused>
        ensures { result ≡ or_kept self (Err refusal) }
    {
        Err(Refused {
            places: self,
            refusal,
        })
    }

    // A part of the row, offered for its target.
    fn offer(mut self, row: &[u32], part: Replacement) -> Result<Replacements, Refused>
        requires { (self.n ≤ 32) × (length row.now ≤ 8192) × (part.start ≤ part.end) × (part.end ≤ length row.now) }
        ensures { result ≡ or_kept self (offer_part self row.now part) }
    {
        let index = part.target as usize;
        if self.n <= index {
            return self.refused(Refusal::NoDeclaration);
        }
        if !is_above(&row[part.start..part.end], part.target) {
            return self.refused(Refusal::NotAbove);
        }
        let place = self.n - 1 - index;
        if self.ends[place] != 0 {
            return self.refused(Refusal::AlreadyFilled);
        }
        self.starts[place] = part.start;
        self.ends[place] = part.end;
        Ok(self)
    }

    // The set with the replacement that a predicate row offers; a refusal gives the set back as it is.
    pub fn check(self, row: &[u32]) -> Result<Replacements, Refused>
        ensures { result ≡ or_kept self (offer_result self row.now) }
    {
        if Limit::WORDS < row.len() {
            return self.refused(Refusal::TooLong);
        }
        if !reader::check::is_form(row, Kind::Predicate) {
            return self.refused(Refusal::Broken(broken_at(row, Kind::Predicate)));
        }
        if Self::LIMIT < self.n {
            return self.refused(Refusal::TooManyPlaces);
        }
        let Some(sides) = equality_of(row) else {
            return self.refused(Refusal::NoEquality);
        };
        let Some(part) = match_replacement(row, sides) else {
            return self.refused(Refusal::NoEquality);
        };
        self.offer(row, part)
    }
}
