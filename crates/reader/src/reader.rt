// The readers of expressions and of predicates, which call one another over the word row. They also mark each name and index with the
// number of declarations that are open there.
ghost use Rattle.std.specs.Prelude.{◌≡◌, ◌+◌, ◌*◌, ◌^◌, ◌<◌, drop, set, replicate, Some, None};
ghost use Rattle.tree.specs.Form.{pick, none};
ghost use Rattle.tree.specs.Tag.{expr, pred, sorts};
ghost use Rattle.form.specs.Decode.{decode, decode_all, decl_at, decls, gots};
ghost use Rattle.form.specs.Internal.Heads.{starts_leaf};
ghost use Rattle.reader.specs.Internal.Reads.{mark_tag, Told, ToldAll, ToldDecl, ToldDecls, ToldNoted, decode_in, decls_within};

use form::answer::Limit;
use form::head::{Head, asked, expr_head, is_leaf, pred_head};

// Stores a mark, where there is room.
fn put_mark(marks: &mut [u32], at: usize, mark: u32)
    ensures { marks.new ≡ set marks.old at mark }
{
    if at < marks.len() {
        marks[at] = mark;
    }
}

// Marks the tag at `at`, if it is that of a name or an index.
fn mark_tag(marks: &mut [u32], at: usize, tag: u32, under: u32)
    requires { under + 1 < 2 ^ 32 }
    ensures { marks.new ≡ mark_tag tag at under marks.old }
{
    if tag == 0 {
        return;
    }
    if 2 < tag {
        return;
    }
    put_mark(marks, at, under + 1);
}

// A name or an index at `at`, under so many open declarations; whatever else stands there is left to the reader of expressions.
fn mark_leaf(row: &[u32], marks: &mut [u32], at: usize, depth: u32, under: u32) -> Option<usize>
    requires { under + 32 * depth < 2 ^ 32 }
    ensures value { result ≡ pick (starts_leaf depth (drop at row.now)) (Some (at + 2)) None }
    ensures marks_after { marks.new ≡ pick (starts_leaf depth (drop at row.now)) (set marks.old at (under + 1)) marks.old }
{
    if is_leaf(row, at, depth) {
        put_mark(marks, at, under + 1);
        return Some(at + 2);
    }
    None
}

// An expression at `at`, under so many open declarations.
#[cycle(readers)]
pub(crate) fn mark_expr(
    row: &[u32],
    marks: &mut [u32],
    at: usize,
    depth: u32,
    under: u32,
) -> Option<usize>
    requires { under + 32 * depth < 2 ^ 32 }
    ensures { Told at under (decode depth expr (drop at row.now)) marks.old marks.new result }
{
    if depth == 0 {
        return None;
    }
    if row.len() <= at {
        return None;
    }
    let tag = row[at];
    let head = expr_head(row, at + 1, tag)?;
    match head {
        Head::Kids(p, preds, exprs, binds) => {
            mark_tag(marks, at, tag, under);
            mark_kids(row, marks, p, preds, exprs, depth - 1, under + binds)
        }
        Head::Noted(p, preds, exprs, binds) => {
            mark_noted(row, marks, p, preds, exprs, binds, depth - 1, under)
        }
    }
}

// A predicate at `at`, under so many open declarations.
#[cycle(readers)]
pub(crate) fn mark_pred(
    row: &[u32],
    marks: &mut [u32],
    at: usize,
    depth: u32,
    under: u32,
) -> Option<usize>
    requires { under + 32 * depth < 2 ^ 32 }
    ensures { Told at under (decode depth pred (drop at row.now)) marks.old marks.new result }
{
    if depth == 0 {
        return None;
    }
    if row.len() <= at {
        return None;
    }
    let tag = row[at];
    let head = pred_head(row, at + 1, tag)?;
    match head {
        Head::Kids(p, preds, exprs, binds) => {
            mark_tag(marks, at, tag, under);
            mark_kids(row, marks, p, preds, exprs, depth - 1, under + binds)
        }
        Head::Noted(p, preds, exprs, binds) => {
            mark_noted(row, marks, p, preds, exprs, binds, depth - 1, under)
        }
    }
}

// A declaration with its flag at `at`: a name and 0, or a name, 1 and an annotation.
#[cycle(readers)]
fn mark_decl(row: &[u32], marks: &mut [u32], at: usize, depth: u32, under: u32) -> Option<usize>
    requires { under + 32 * depth < 2 ^ 32 }
    ensures { ToldDecl at under (decl_at (λ s l. decode depth s l) (drop at row.now)) marks.old marks.new result }
{
    let w = asked(row, at, 0, Limit::NAME)?;
    let flag = asked(row, at + 1, 0, 1)?;
    if flag == 0 {
        return Some(at + 2);
    }
    mark_child(row, marks, at + 2, depth, under)
}

// n declarations with flags; their annotations stand under the declarations that are open round them.
#[cycle(readers)]
fn mark_decls(
    row: &[u32],
    marks: &mut [u32],
    at: usize,
    n: u32,
    depth: u32,
    under: u32,
) -> Option<usize>
    requires { under + 32 * depth < 2 ^ 32 }
    ensures { ToldDecls at under (decls (λ s l. decode depth s l) n (drop at row.now)) marks.old marks.new result }
{
    let mut p = at;
    for _ in 0..n {
        p = mark_decl(row, marks, p, depth, under)?;
    }
    Some(p)
}

// Declarations with flags, one of which at least has an annotation, and the children under them.
#[cycle(readers)]
fn mark_noted(
    row: &[u32],
    marks: &mut [u32],
    at: usize,
    preds: u32,
    exprs: u32,
    binds: u32,
    depth: u32,
    under: u32,
) -> Option<usize>
    requires { under + binds + 32 * depth < 2 ^ 32 }
    ensures { ToldNoted at under (decls (λ s l. decode depth s l) binds (drop at row.now)) (λ l. decode_all (λ s l. decode depth s l) (sorts preds exprs) l) marks.old marks.new result }
{
    let p = mark_decls(row, marks, at, binds, depth, under)?;
    if p - at == 2 * (binds as usize) {
        return None;
    }
    let q = mark_preds(row, marks, p, preds, depth, under + binds)?;
    mark_exprs(row, marks, q, exprs, depth, under + binds)
}

// So many predicates, then so many expressions.
#[cycle(readers)]
fn mark_kids(
    row: &[u32],
    marks: &mut [u32],
    at: usize,
    preds: u32,
    exprs: u32,
    depth: u32,
    under: u32,
) -> Option<usize>
    requires { under + 32 * depth < 2 ^ 32 }
    ensures { ToldAll at under (decode_all (λ s l. decode depth s l) (sorts preds exprs) (drop at row.now)) marks.old marks.new result }
{
    let p = mark_preds(row, marks, at, preds, depth, under)?;
    mark_exprs(row, marks, p, exprs, depth, under)
}

// An expression at `at`: a name or an index, the common case, without a call.
#[cycle(readers)]
pub(crate) fn mark_child(
    row: &[u32],
    marks: &mut [u32],
    at: usize,
    depth: u32,
    under: u32,
) -> Option<usize>
    requires { under + 32 * depth < 2 ^ 32 }
    ensures { Told at under (decode depth expr (drop at row.now)) marks.old marks.new result }
{
    match mark_leaf(row, marks, at, depth, under) {
        Some(end) => Some(end),
        None => mark_expr(row, marks, at, depth, under),
    }
}

// n expressions in a row.
#[cycle(readers)]
fn mark_exprs(
    row: &[u32],
    marks: &mut [u32],
    at: usize,
    n: u32,
    depth: u32,
    under: u32,
) -> Option<usize>
    requires { under + 32 * depth < 2 ^ 32 }
    ensures { ToldAll at under (decode_all (λ s l. decode depth s l) (replicate n expr) (drop at row.now)) marks.old marks.new result }
{
    let mut p = at;
    for _ in 0..n {
        p = mark_child(row, marks, p, depth, under)?;
    }
    Some(p)
}

// n predicates in a row.
#[cycle(readers)]
fn mark_preds(
    row: &[u32],
    marks: &mut [u32],
    at: usize,
    n: u32,
    depth: u32,
    under: u32,
) -> Option<usize>
    requires { under + 32 * depth < 2 ^ 32 }
    ensures { ToldAll at under (decode_all (λ s l. decode depth s l) (replicate n pred) (drop at row.now)) marks.old marks.new result }
{
    let mut p = at;
    for _ in 0..n {
        p = mark_pred(row, marks, p, depth, under)?;
    }
    Some(p)
}

// An expression at `at`, under so many open declarations; where the depth or their number is over 65,535, none is read.
pub fn expr_at(row: &[u32], marks: &mut [u32], at: usize, depth: u32, under: u32) -> Option<usize>
    ensures { Told at under (decode_in depth under expr (drop at row.now)) marks.old marks.new result }
{
    if Limit::NAME < depth {
        return None;
    }
    if Limit::NAME < under {
        return None;
    }
    mark_expr(row, marks, at, depth, under)
}

// A predicate at `at`, likewise.
pub fn pred_at(row: &[u32], marks: &mut [u32], at: usize, depth: u32, under: u32) -> Option<usize>
    ensures { Told at under (decode_in depth under pred (drop at row.now)) marks.old marks.new result }
{
    if Limit::NAME < depth {
        return None;
    }
    if Limit::NAME < under {
        return None;
    }
    mark_pred(row, marks, at, depth, under)
}

// n declarations with flags at `at`, one of which at least has an annotation, under so many open declarations; where the depth or one of the
// numbers is over 65,535, none are read.
pub fn decls_at(
    row: &[u32],
    marks: &mut [u32],
    at: usize,
    n: u32,
    depth: u32,
    under: u32,
) -> Option<usize>
    ensures { ToldNoted at under (decls_within depth under n (drop at row.now)) (λ l. gots none l) marks.old marks.new result }
{
    if Limit::NAME < depth {
        return None;
    }
    if Limit::NAME < under {
        return None;
    }
    if Limit::NAME < n {
        return None;
    }
    mark_noted(row, marks, at, 0, 0, n, depth, under)
}
