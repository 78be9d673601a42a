// The printers of expressions and of predicates, which call one another over the word row and write its spelling.
ghost use Rattle.std.specs.Prelude.{◌≡◌, [], ◌∷◌, ◌++◌, ◌+◌, ◌-◌, ◌*◌, ◌^◌, ◌<◌, ◌≤◌, length, get_or, take, drop, replicate};
ghost use Rattle.tree.specs.Form.{pick};
ghost use Rattle.tree.specs.Tag.{expr, pred, own, sorts};
ghost use Rattle.form.specs.Decode.{read, decode, decode_all, decl_at, decls};
ghost use Rattle.form.specs.Internal.Heads.{head_at};
ghost use Rattle.spell.specs.Spell.{decimal, spaced, bracket};
ghost use Rattle.spell.specs.Internal.Writes.{Wrote, Printed, PrintedAll, PrintedDecl, PrintedDecls, PrintedNoted};

use crate::decimal::{put_byte, put_decimal, put_spaced};
use form::answer::Limit;
use form::head::{Head, asked, expr_head, is_leaf, pred_head};

// A place of the row, and the place of the output at which what stands there is written.
#[derive(Clone, Copy)]
pub struct Spot {
    pub row: usize,
    pub out: usize,
}

// The bracket, the tag at the spot and the words up to `end`.
fn put_head(row: &[u32], out: &mut [u8], at: Spot, end: usize) -> usize
    requires { (at.row < end) × (end ≤ length row.now) × (at.out + 11 * (end - at.row) < 2 ^ 64) }
    ensures { Wrote at.out (91 ∷ (decimal (get_or row.now at.row 0) ++ spaced (take (end - (at.row + 1)) (drop (at.row + 1) row.now)))) out.old out.new result }
{
    let p = put_byte(out, at.out, b'[');
    let q = put_decimal(out, p, row[at.row]);
    put_spaced(&row[at.row + 1..end], out, q)
}

// What stands after the tag of an expression, or of a predicate.
fn node_head(row: &[u32], at: usize, tag: u32, expression: bool) -> Option<Head>
    ensures { result ≡ head_at at (read (own (pick expression expr pred) tag) (drop at row.now)) }
{
    if expression {
        return expr_head(row, at, tag);
    }
    pred_head(row, at, tag)
}

// An expression, or a predicate: where it ends.
#[cycle(printers)]
pub(crate) fn print_node(
    row: &[u32],
    out: &mut [u8],
    at: Spot,
    expression: bool,
    depth: u32,
) -> Option<Spot>
    requires { at.out + 13 * (length row.now - at.row) < 2 ^ 64 }
    ensures { Printed at.row at.out (decode depth (pick expression expr pred) (drop at.row row.now)) out.old out.new result }
{
    if depth == 0 {
        return None;
    }
    if row.len() <= at.row {
        return None;
    }
    let head = node_head(row, at.row + 1, row[at.row], expression)?;
    match head {
        Head::Kids(p, preds, exprs, _) => {
            let i = put_head(row, out, at, p);
            let kids = print_kids(row, out, Spot { row: p, out: i }, preds, exprs, depth - 1)?;
            Some(Spot {
                row: kids.row,
                out: put_byte(out, kids.out, b']'),
            })
        }
        Head::Noted(p, preds, exprs, binds) => {
            let i = put_head(row, out, at, p);
            print_noted(
                row,
                out,
                Spot { row: p, out: i },
                preds,
                exprs,
                binds,
                depth - 1,
            )
        }
    }
}

// A declaration with its flag, after a space: a name and 0, or a name, 1 and an annotation.
#[cycle(printers)]
fn print_decl(row: &[u32], out: &mut [u8], at: Spot, depth: u32) -> Option<Spot>
    requires { at.out + 1 + 13 * (length row.now - at.row) < 2 ^ 64 }
    ensures { PrintedDecl at.row at.out (decl_at (λ s l. decode depth s l) (drop at.row row.now)) out.old out.new result }
{
    asked(row, at.row, 0, Limit::NAME)?;
    let flag = asked(row, at.row + 1, 0, 1)?;
    let end = at.row + 2;
    let i = put_spaced(&row[at.row..end], out, at.out);
    if flag == 0 {
        return Some(Spot { row: end, out: i });
    }
    let k = put_byte(out, i, b' ');
    print_child(row, out, Spot { row: end, out: k }, true, depth)
}

// n declarations with flags.
#[cycle(printers)]
fn print_decls(row: &[u32], out: &mut [u8], at: Spot, n: u32, depth: u32) -> Option<Spot>
    requires { at.out + 1 + 13 * (length row.now - at.row) < 2 ^ 64 }
    ensures { PrintedDecls at.row at.out (decls (λ s l. decode depth s l) n (drop at.row row.now)) out.old out.new result }
{
    let mut spot = at;
    for _ in 0..n {
        spot = print_decl(row, out, spot, depth)?;
    }
    Some(spot)
}

// Declarations with flags, one of which at least has an annotation, the children under them, and the bracket.
#[cycle(printers)]
fn print_noted(
    row: &[u32],
    out: &mut [u8],
    at: Spot,
    preds: u32,
    exprs: u32,
    binds: u32,
    depth: u32,
) -> Option<Spot>
    requires { at.out + 1 + 13 * (length row.now - at.row) < 2 ^ 64 }
    ensures { PrintedNoted at.row at.out (decls (λ s l. decode depth s l) binds (drop at.row row.now)) (λ l. decode_all (λ s l. decode depth s l) (sorts preds exprs) l) out.old out.new result }
{
    let declared = print_decls(row, out, at, binds, depth)?;
    if declared.row - at.row == 2 * (binds as usize) {
        return None;
    }
    let kids = print_kids(row, out, declared, preds, exprs, depth)?;
    Some(Spot {
        row: kids.row,
        out: put_byte(out, kids.out, b']'),
    })
}

// So many predicates, then so many expressions, each after a space.
#[cycle(printers)]
fn print_kids(
    row: &[u32],
    out: &mut [u8],
    at: Spot,
    preds: u32,
    exprs: u32,
    depth: u32,
) -> Option<Spot>
    requires { at.out + 1 + 13 * (length row.now - at.row) < 2 ^ 64 }
    ensures { PrintedAll at.row at.out (decode_all (λ s l. decode depth s l) (sorts preds exprs) (drop at.row row.now)) out.old out.new result }
{
    let spot = print_nodes(row, out, at, preds, false, depth)?;
    print_nodes(row, out, spot, exprs, true, depth)
}

// A name or an index.
fn put_leaf(row: &[u32], out: &mut [u8], at: Spot) -> usize
    requires { (at.row + 1 < length row.now) × (at.out + 26 < 2 ^ 64) }
    ensures { Wrote at.out (bracket (get_or row.now at.row 0) (get_or row.now (at.row + 1) 0 ∷ []) []) out.old out.new result }
{
    let p = put_byte(out, at.out, b'[');
    let q = put_decimal(out, p, row[at.row]);
    let i = put_byte(out, q, b' ');
    let j = put_decimal(out, i, row[at.row + 1]);
    put_byte(out, j, b']')
}

// An expression, or a predicate: a name or an index, the common case, without a call.
#[cycle(printers)]
fn print_child(row: &[u32], out: &mut [u8], at: Spot, expression: bool, depth: u32) -> Option<Spot>
    requires { at.out + 13 * (length row.now - at.row) < 2 ^ 64 }
    ensures { Printed at.row at.out (decode depth (pick expression expr pred) (drop at.row row.now)) out.old out.new result }
{
    if expression && is_leaf(row, at.row, depth) {
        return Some(Spot {
            row: at.row + 2,
            out: put_leaf(row, out, at),
        });
    }
    print_node(row, out, at, expression, depth)
}

// n expressions, or n predicates, each after a space.
#[cycle(printers)]
fn print_nodes(
    row: &[u32],
    out: &mut [u8],
    at: Spot,
    n: u32,
    expression: bool,
    depth: u32,
) -> Option<Spot>
    requires { at.out + 1 + 13 * (length row.now - at.row) < 2 ^ 64 }
    ensures { PrintedAll at.row at.out (decode_all (λ s l. decode depth s l) (replicate n (pick expression expr pred)) (drop at.row row.now)) out.old out.new result }
{
    let mut spot = at;
    for _ in 0..n {
        let k = put_byte(out, spot.out, b' ');
        spot = print_child(
            row,
            out,
            Spot {
                row: spot.row,
                out: k,
            },
            expression,
            depth,
        )?;
    }
    Some(spot)
}
