// An equality and its replacement, by the positions of the two sides in a row.
ghost use Rattle.std.specs.Prelude.{◌≡◌, ◌&&◌, ◌<◌, ◌≤◌, ltb, length, drop};
ghost use Rattle.shift.specs.Internal.Items.{Fresh};
ghost use Rattle.places.specs.Internal.Sides.{equality_words, index_words, replacement_words, left_for, right_for, above_words};

use crate::positions::skip_expr;
use form::answer::{Kind, Limit};
use shift::items::all_in;
use tree::tag::Tag;

// The left side stands from `left` to `middle`, the right one from `right` to `end`.
#[derive(Clone, Copy)]
pub struct Sides {
    pub left: usize,
    pub middle: usize,
    pub right: usize,
    pub end: usize,
}

// The part of a row from `start` to `end`, which stands for the target.
#[derive(Clone, Copy)]
pub struct Replacement {
    pub target: u32,
    pub start: usize,
    pub end: usize,
}

impl Sides {
    // The left side, for the target.
    fn left_for(self, target: u32) -> Replacement
        ensures { result ≡ left_for self target }
    {
        Replacement {
            target: target,
            start: self.left,
            end: self.middle,
        }
    }

    // The right side, for the target.
    fn right_for(self, target: u32) -> Replacement
        ensures { result ≡ right_for self target }
    {
        Replacement {
            target: target,
            start: self.right,
            end: self.end,
        }
    }
}

// The sides of the equality that is the whole row.
pub fn equality_of(row: &[u32]) -> Option<Sides>
    ensures { result ≡ equality_words row.now }
{
    if row.len() == 0 {
        return None;
    }
    if row[0] != Tag::EQUAL {
        return None;
    }
    let middle = skip_expr(row, 1, 63)?;
    Some(Sides {
        left: 1,
        middle: middle,
        right: middle,
        end: row.len(),
    })
}

// The index at `at`, if one stands there.
pub fn index_at(row: &[u32], at: usize) -> Option<u32>
    ensures { result ≡ index_words (drop at row.now) }
{
    if *row.get(at)? != Tag::BOUND_IDENT {
        return None;
    }
    Some(*row.get(at + 1)?)
}

// Both sides bound: the smaller index is replaced by the other side; else the side that is bound, the right one first.
pub fn match_replacement(row: &[u32], sides: Sides) -> Option<Replacement>
    ensures { result ≡ replacement_words sides row.now }
{
    let Some(j) = index_at(row, sides.right) else {
        let i = index_at(row, sides.left)?;
        return Some(sides.right_for(i));
    };
    match index_at(row, sides.left) {
        Some(i) if i < j => Some(sides.right_for(i)),
        _ => Some(sides.left_for(j)),
    }
}

// Whether every index that dangles in the expression is above the target; there are marks for N words.
fn above_marked<const N: usize>(part: &[u32], target: u32) -> bool
    requires { (target < 32) × (length part.now ≤ N) × (N ≤ 8192) }
    ensures { result ≡ above_words target part.now }
{
    let mut marks = [0u32; N];
    if !reader::check::mark_form(part, Kind::Expression, &mut marks) {
        return false;
    }
    all_in(part, &marks, target + 1, 65536)
}

// Whether the target is one of at most 32 declarations, and every index that dangles in the expression is above it.
pub fn is_above(part: &[u32], target: u32) -> bool
    ensures { result ≡ (ltb target 32 && above_words target part.now) }
{
    if 32 <= target {
        return false;
    }
    if Limit::WORDS < part.len() {
        return false;
    }
    if part.len() <= 64 {
        return above_marked::<64>(part, target);
    }
    above_marked::<{ Limit::WORDS }>(part, target)
}
