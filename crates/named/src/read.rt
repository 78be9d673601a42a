// The reader of named rows: it checks the row as it goes, refuses every index, and writes the words of the nameless form.
ghost use Rattle.std.specs.Prelude.{◌≡◌, ◌+◌, ◌≤◌, ◌<◌, length, get_or, drop, replicate};
ghost use Rattle.tree.specs.Tag.{own, sorts};
ghost use Rattle.form.specs.Decode.{read, decode_all, decl_at, decls};
ghost use Rattle.form.specs.Internal.Heads.{head_at};
ghost use Rattle.rules.specs.Named.{opened};
ghost use Rattle.named.specs.Internal.Scope.{scope_of};
ghost use Rattle.named.specs.Internal.Reads.{read_names, sort_of, Ready, Wrote, WroteLeaf, WroteAll, WroteDecl, WroteDecls, WroteNoted, Kept};

use crate::scope::{close_names, open_names};
use crate::words::{copy_words, put_name};
use form::answer::Limit;
use form::head::{Head, asked, expr_head, pred_head};
use tree::tag::Tag;

// What stands after the tag of an expression, or of a predicate.
fn head_of(row: &[u32], at: usize, tag: u32, expression: bool) -> Option<Head>
    ensures { result ≡ head_at at (read (own (sort_of expression) tag) (drop at row.now)) }
{
    if expression {
        return expr_head(row, at, tag);
    }
    pred_head(row, at, tag)
}

// A name at `at`, where a tag stands that is at most that of an index: no other form of a named row begins with such a tag.
fn name_leaf(
    row: &[u32],
    made: &mut [u32],
    scope: &[u32],
    at: usize,
    expression: bool,
    under: u32,
) -> Option<usize>
    requires ready { Ready row.now made.old scope.now at under }
    requires at_in_bounds { (at < length row.now) × (get_or row.now at 0 ≤ 2) }
    ensures { WroteLeaf at (scope_of scope.now under) (sort_of expression) (drop at row.now) made.old made.new result }
{
    if !expression {
        return None;
    }
    if row[at] != Tag::FREE_IDENT {
        return None;
    }
    let m = asked(row, at + 1, 0, Limit::NAME)?;
    put_name(made, scope, at, m, under);
    Some(at + 2)
}

// A form at `at`, an expression or a predicate, under so many open declarations.
#[cycle(namers)]
pub(crate) fn name_form(
    row: &[u32],
    made: &mut [u32],
    scope: &mut [u32],
    at: usize,
    expression: bool,
    depth: u32,
    under: u32,
) -> Option<usize>
    requires { Ready row.now made.old scope.old at under }
    ensures wrote { Wrote at (scope_of scope.old under) (read_names depth (sort_of expression) (drop at row.now)) made.old made.new result }
    ensures kept { Kept result under scope.old scope.new }
{
    if depth == 0 {
        return None;
    }
    if row.len() <= at {
        return None;
    }
    let tag = row[at];
    if tag <= Tag::BOUND_IDENT {
        return name_leaf(row, made, scope, at, expression, under);
    }
    let head = head_of(row, at + 1, tag, expression)?;
    match head {
        Head::Kids(p, preds, exprs, binds) => {
            copy_words(row, made, at, p);
            let first = p - (binds as usize);
            name_under(
                row,
                made,
                scope,
                &row[first..p],
                p,
                preds,
                exprs,
                depth - 1,
                under,
            )
        }
        Head::Noted(p, preds, exprs, binds) => {
            copy_words(row, made, at, p);
            name_noted(row, made, scope, p, preds, exprs, binds, depth - 1, under)
        }
    }
}

// The children of a node that declares these names, and its declarations opened and closed round them.
#[cycle(namers)]
fn name_under(
    row: &[u32],
    made: &mut [u32],
    scope: &mut [u32],
    declared: &[u32],
    at: usize,
    preds: u32,
    exprs: u32,
    depth: u32,
    under: u32,
) -> Option<usize>
    requires ready { Ready row.now made.old scope.old at under }
    requires declared_bound { (under + length declared.now ≤ at) × (at ≤ length row.now) × (length declared.now ≤ 32) }
    ensures wrote_all { WroteAll at (opened declared.now (scope_of scope.old under)) (decode_all (λ s l. read_names depth s l) (sorts preds exprs) (drop at row.now)) made.old made.new result }
    ensures kept { Kept result under scope.old scope.new }
{
    let binds = declared.len() as u32;
    open_names(scope, declared, under);
    let q = name_all(row, made, scope, at, preds, false, depth, under + binds)?;
    let end = name_all(row, made, scope, q, exprs, true, depth, under + binds)?;
    close_names(scope, under, binds);
    Some(end)
}

// n expressions or n predicates in a row.
#[cycle(namers)]
fn name_all(
    row: &[u32],
    made: &mut [u32],
    scope: &mut [u32],
    at: usize,
    n: u32,
    expression: bool,
    depth: u32,
    under: u32,
) -> Option<usize>
    requires { Ready row.now made.old scope.old at under }
    ensures wrote_all { WroteAll at (scope_of scope.old under) (decode_all (λ s l. read_names depth s l) (replicate n (sort_of expression)) (drop at row.now)) made.old made.new result }
    ensures kept { Kept result under scope.old scope.new }
{
    let mut p = at;
    for _ in 0..n {
        p = name_form(row, made, scope, p, expression, depth, under)?;
    }
    Some(p)
}

// Declarations with flags, one of which at least has an annotation, and the children under them.
#[cycle(namers)]
fn name_noted(
    row: &[u32],
    made: &mut [u32],
    scope: &mut [u32],
    at: usize,
    preds: u32,
    exprs: u32,
    binds: u32,
    depth: u32,
    under: u32,
) -> Option<usize>
    requires ready { Ready row.now made.old scope.old at under }
    requires binds_bound { (binds ≤ 32) × (at ≤ length row.now) }
    ensures wrote_noted { WroteNoted at (scope_of scope.old under) (decls (λ s l. read_names depth s l) binds (drop at row.now)) (λ l. decode_all (λ s l. read_names depth s l) (sorts preds exprs) l) made.old made.new result }
    ensures kept { Kept result under scope.old scope.new }
{
    let mut names = [0u32; 32];
    let p = name_decls(row, made, scope, &mut names, at, binds, depth, under)?;
    let n = binds as usize;
    if p - at == 2 * n {
        return None;
    }
    name_under(row, made, scope, &names[..n], p, preds, exprs, depth, under)
}

// A declaration with its flag at `at`: a name and 0, or a name, 1 and an annotation, which stands under the declarations that are open round it.
#[cycle(namers)]
fn name_decl(
    row: &[u32],
    made: &mut [u32],
    scope: &mut [u32],
    at: usize,
    depth: u32,
    under: u32,
) -> Option<usize>
    requires { Ready row.now made.old scope.old at under }
    ensures wrote_decl { WroteDecl at (scope_of scope.old under) (decl_at (λ s l. read_names depth s l) (drop at row.now)) made.old made.new result }
    ensures kept { Kept result under scope.old scope.new }
{
    let m = asked(row, at, 0, Limit::NAME)?;
    let flag = asked(row, at + 1, 0, 1)?;
    copy_words(row, made, at, at + 2);
    if flag == 0 {
        return Some(at + 2);
    }
    name_form(row, made, scope, at + 2, true, depth, under)
}

// n declarations with flags, whose names are kept.
#[cycle(namers)]
fn name_decls(
    row: &[u32],
    made: &mut [u32],
    scope: &mut [u32],
    names: &mut [u32],
    at: usize,
    n: u32,
    depth: u32,
    under: u32,
) -> Option<usize>
    requires ready { Ready row.now made.old scope.old at under }
    requires n_in_bounds { n ≤ length names.old }
    ensures wrote_decls { WroteDecls at (scope_of scope.old under) (decls (λ s l. read_names depth s l) n (drop at row.now)) made.old made.new names.new result }
    ensures kept { Kept result under scope.old scope.new }
{
    let mut p = at;
    for i in 0..n {
        let q = name_decl(row, made, scope, p, depth, under)?;
        names[i as usize] = row[p];
        p = q;
    }
    Some(p)
}
