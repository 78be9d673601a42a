// Forms by their positions in a row: where they end, and the sides of a part of an equality.
ghost use Rattle.std.specs.Prelude.{◌≡◌, ◌<◌, eqb, get_or, drop};
ghost use Rattle.tree.specs.Tag.{expr, pred};
ghost use Rattle.reader.specs.Internal.Reads.{decode_in};
ghost use Rattle.places.specs.Internal.Positions.{end_at, both_pairs, part_words};

use crate::sides::Sides;
use reader::reader::{expr_at, pred_at};
use tree::tag::Tag;

// Where the expression at `at` ends.
pub fn skip_expr(row: &[u32], at: usize, depth: u32) -> Option<usize>
    ensures { result ≡ end_at at (decode_in depth 0 expr (drop at row.now)) }
{
    let mut marks = [0u32; 1];
    expr_at(row, &mut marks, at, depth, 0)
}

// Where the predicate at `at` ends.
pub fn skip_pred(row: &[u32], at: usize, depth: u32) -> Option<usize>
    ensures { result ≡ end_at at (decode_in depth 0 pred (drop at row.now)) }
{
    let mut marks = [0u32; 1];
    pred_at(row, &mut marks, at, depth, 0)
}

// Whether the tag stands at `at`, where a word past the end counts as 0.
pub fn has_tag(row: &[u32], at: usize, tag: u32) -> bool
    ensures { result ≡ eqb (get_or row.now at 0) tag }
{
    row.get(at).copied().unwrap_or(0) == tag
}

// Whether a pair stands at p and at q.
#[tactic(auto, unfolding(crate::specs::Internal::Positions::both_pairs))]
pub fn both_pairs(row: &[u32], p: usize, q: usize) -> bool
    ensures { result ≡ both_pairs row.now p q }
{
    has_tag(row, p, Tag::MAPSTO) && has_tag(row, q, Tag::MAPSTO)
}

// Where the expression at `at` ends; where none stands there, `at` itself.
pub fn expr_end(row: &[u32], at: usize) -> usize
    ensures { result ≡ (part_words row.now at at).middle }
{
    skip_expr(row, at, 64).unwrap_or(at)
}

// The part whose sides stand at p and q.
pub fn part_at(row: &[u32], p: usize, q: usize) -> Sides
    ensures { result ≡ part_words row.now p q }
{
    Sides {
        left: p,
        middle: expr_end(row, p),
        right: q,
        end: expr_end(row, q),
    }
}
