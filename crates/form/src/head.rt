// What stands between a tag and its children: own words and declared names.
ghost use Rattle.std.specs.Prelude.{◌≡◌, drop};
ghost use Rattle.tree.specs.Form.{pick};
ghost use Rattle.tree.specs.Tag.{expr, pred, own, own_of, shape_of, ask, kids, flags};
ghost use Rattle.form.specs.Decode.{read, names};
ghost use Rattle.form.specs.Internal.Heads.{word_at, head_at, names_at, starts_leaf};

use crate::answer::Limit;
use tree::tag::{Shape, Tag, expr_shape, pred_shape};

// Where the children begin, the number of predicates and, after them, of expressions, and the
// number of declarations that are open in them.
#[derive(Clone, Copy)]
pub enum Head {
    Kids(usize, u32, u32, u32),
    // The same where declarations have flags: where they begin.
    Noted(usize, u32, u32, u32),
}

// The word at `at`, if it is between the limits.
pub fn asked(row: &[u32], at: usize, lo: u32, hi: u32) -> Option<u32>
    ensures { result ≡ word_at lo hi (drop at row.now) }
{
    if row.len() <= at {
        return None;
    }
    let w = row[at];
    if w < lo {
        return None;
    }
    if hi < w {
        return None;
    }
    Some(w)
}

// One word of at most hi, and no children.
fn word_head(row: &[u32], at: usize, hi: u32) -> Option<Head>
    ensures { result ≡ head_at at (read (ask 0 hi (λ n. kids 0 0 0)) (drop at row.now)) }
{
    asked(row, at, 0, hi)?;
    Some(Head::Kids(at + 1, 0, 0, 0))
}

// A count of at least min, of expressions.
fn exprs_head(row: &[u32], at: usize, min: u32) -> Option<Head>
    ensures { result ≡ head_at at (read (ask min 4294967295 (λ n. kids 0 0 n)) (drop at row.now)) }
{
    let n = asked(row, at, min, Limit::WORD)?;
    Some(Head::Kids(at + 1, 0, n, 0))
}

// A count of at least min, of predicates.
fn preds_head(row: &[u32], at: usize, min: u32) -> Option<Head>
    ensures { result ≡ head_at at (read (ask min 4294967295 (λ n. kids 0 n 0)) (drop at row.now)) }
{
    let n = asked(row, at, min, Limit::WORD)?;
    Some(Head::Kids(at + 1, n, 0, 0))
}

// A name, then a count of expressions.
fn apply_head(row: &[u32], at: usize) -> Option<Head>
    ensures { result ≡ head_at at (read (ask 0 65535 (λ name. ask 0 4294967295 (λ n. kids 0 0 n))) (drop at row.now)) }
{
    asked(row, at, 0, Limit::NAME)?;
    exprs_head(row, at + 1, 0)
}

// Where n names end.
fn names_end(row: &[u32], at: usize, n: u32) -> Option<usize>
    ensures { result ≡ names_at at (names n 0 0 (drop at row.now)) }
{
    let mut p = at;
    for _ in 0..n {
        asked(row, p, 0, Limit::NAME)?;
        p += 1;
    }
    Some(p)
}

// The declarations of a quantifier: one predicate and so many expressions follow.
fn bound_head(row: &[u32], at: usize, exprs: u32) -> Option<Head>
    ensures { result ≡ head_at at (read (ask 1 32 (λ n. kids n 1 exprs)) (drop at row.now)) }
{
    let n = asked(row, at, 1, Limit::DECLARATIONS)?;
    let p = names_end(row, at + 1, n)?;
    Some(Head::Kids(p, 1, exprs, n))
}

// The form word of a comprehension, from 0 to 3, and its declarations.
fn compr_head(row: &[u32], at: usize) -> Option<Head>
    ensures { result ≡ head_at at (read (ask 0 3 (λ form. ask 1 32 (λ n. kids n 1 1))) (drop at row.now)) }
{
    asked(row, at, 0, 3)?;
    bound_head(row, at + 1, 1)
}

// The declarations with flags of a quantifier: one predicate and so many expressions follow.
fn flags_head(row: &[u32], at: usize, exprs: u32) -> Option<Head>
    ensures { result ≡ head_at at (read (ask 1 32 (λ n. flags n 1 exprs)) (drop at row.now)) }
{
    let n = asked(row, at, 1, Limit::DECLARATIONS)?;
    Some(Head::Noted(at + 1, 1, exprs, n))
}

// The form word of a comprehension, and its declarations with flags.
fn flags_compr_head(row: &[u32], at: usize) -> Option<Head>
    ensures { result ≡ head_at at (read (ask 0 3 (λ form. ask 1 32 (λ n. flags n 1 1))) (drop at row.now)) }
{
    asked(row, at, 0, 3)?;
    flags_head(row, at + 1, 1)
}

// What stands after a tag of the shape, before its children.
fn own_words(row: &[u32], at: usize, shape: Shape) -> Option<Head>
    ensures { result ≡ head_at at (read (own_of shape) (drop at row.now)) }
{
    match shape {
        Shape::Unknown => None,
        Shape::Plain(preds, exprs) => Some(Head::Kids(at, preds, exprs, 0)),
        Shape::Name => word_head(row, at, Limit::NAME),
        Shape::Value => word_head(row, at, Limit::WORD),
        Shape::Exprs(min) => exprs_head(row, at, min),
        Shape::Preds(min) => preds_head(row, at, min),
        Shape::Apply => apply_head(row, at),
        Shape::Compr => compr_head(row, at),
        Shape::Quant => bound_head(row, at, 0),
        Shape::NotedCompr => flags_compr_head(row, at),
        Shape::NotedQuant => flags_head(row, at, 0),
    }
}

// The shape of an expression's tag, or of a predicate's.
fn shape_of(tag: u32, expression: bool) -> Shape
    ensures { result ≡ shape_of (pick expression expr pred) tag }
{
    if expression {
        return expr_shape(tag);
    }
    pred_shape(tag)
}

// What stands after the tag of an expression, or of a predicate. The predicates that have own words most often need no shape; it is looked
// up here for the others, so that no caller keeps one in memory.
fn tag_words(row: &[u32], at: usize, tag: u32, expression: bool) -> Option<Head>
    ensures { result ≡ head_at at (read (own (pick expression expr pred) tag) (drop at row.now)) }
{
    if !expression {
        match tag {
            Tag::AND..=Tag::OR => return preds_head(row, at, 2),
            Tag::FOR_ALL..=Tag::EXISTS => return bound_head(row, at, 0),
            _ => {}
        }
    }
    let shape = shape_of(tag, expression);
    own_words(row, at, shape)
}

// What stands after the tag of an expression; a node without own words, the common case, is answered without a call.
pub fn expr_head(row: &[u32], at: usize, tag: u32) -> Option<Head>
    ensures { result ≡ head_at at (read (own expr tag) (drop at row.now)) }
{
    let Shape::Plain(preds, exprs) = expr_shape(tag) else {
        return tag_words(row, at, tag, true);
    };
    Some(Head::Kids(at, preds, exprs, 0))
}

// What stands after the tag of a predicate; a node without own words, the common case, is answered without a call.
pub fn pred_head(row: &[u32], at: usize, tag: u32) -> Option<Head>
    ensures { result ≡ head_at at (read (own pred tag) (drop at row.now)) }
{
    let Shape::Plain(preds, exprs) = pred_shape(tag) else {
        return tag_words(row, at, tag, false);
    };
    Some(Head::Kids(at, preds, exprs, 0))
}

// Whether a name or an index stands at `at`, within the depth.
pub fn is_leaf(row: &[u32], at: usize, depth: u32) -> bool
    ensures { result ≡ starts_leaf depth (drop at row.now) }
{
    if depth == 0 {
        return false;
    }
    if row.len() <= at {
        return false;
    }
    if row.len() <= at + 1 {
        return false;
    }
    if row[at] == 0 {
        return false;
    }
    if Tag::BOUND_IDENT < row[at] {
        return false;
    }
    row[at + 1] <= Limit::NAME
}
