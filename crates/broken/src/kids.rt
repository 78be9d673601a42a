// Children: so many predicates, then so many expressions.
ghost use Rattle.std.specs.Prelude.{◌≡◌, ◌-◌, drop};
ghost use Rattle.tree.specs.Tag.{own};
ghost use Rattle.form.specs.Decode.{read};
ghost use Rattle.form.specs.Internal.Heads.{head_at};
ghost use Rattle.broken.specs.Internal.Seeks.{sort_of, no_kids, exprs_after};

use form::head::{Head, expr_head, pred_head};

// Whether there are none.
pub(crate) fn no_kids(preds: u32, exprs: u32) -> bool
    ensures { result ≡ no_kids preds exprs }
{
    if 0 < preds {
        return false;
    }
    exprs == 0
}

// The expressions after the first child.
pub(crate) fn exprs_after(preds: u32, exprs: u32) -> u32
    ensures { result ≡ exprs_after preds exprs }
{
    if preds == 0 {
        return exprs.saturating_sub(1);
    }
    exprs
}

// What stands after the tag of the first child: of a predicate where there are predicates, or else of an expression.
pub(crate) fn child_head(row: &[u32], at: usize, preds: u32, tag: u32) -> Option<Head>
    ensures { result ≡ head_at at (read (own (sort_of preds) tag) (drop at row.now)) }
{
    if preds == 0 {
        return expr_head(row, at, tag);
    }
    pred_head(row, at, tag)
}
