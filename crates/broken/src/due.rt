// What must still come of a node, and the fewest words that this takes.
ghost use Rattle.std.specs.Prelude.{◌≡◌, ◌≤◌, true, false};
ghost use Rattle.tree.specs.Tag.{own, own_of};
ghost use Rattle.form.specs.Break.{note, parts, low_flag, decls_next, next_of, least};
ghost use Rattle.broken.specs.Internal.Seeks.{sort_of, next_due, next_then, after_flag, flag_next, after_word, is_own};

use form::answer::Limit;
use tree::tag::{Shape, expr_shape, pred_shape};

// What a word is followed by: nothing; so many expressions or predicates; a count of expressions; declarations, a predicate and an
// expression; so many names, a predicate and expressions. With annotations: declarations, a predicate and an expression; declarations, a
// predicate and expressions; the flag of a declared name, and what the flag is followed by: whether an annotation came before, and so many
// declarations and expressions after it.
#[derive(Clone, Copy)]
pub enum Then {
    Nothing,
    Exprs,
    Preds,
    Count,
    Declared,
    Names(u32),
    NotedDeclared,
    Noted(u32),
    Flag(bool, u32, u32),
    Decl(bool, u32, u32),
}

// The rest of a node: names, predicates and expressions, so many of each; a word between limits and what follows it; an annotation and so
// many declarations, a predicate and expressions; what cannot come.
#[derive(Clone, Copy)]
pub enum Due {
    Kids(u32, u32, u32),
    Ask(u32, u32, Then),
    Note(u32, u32),
    Wrong,
}

// Declarations with flags, a predicate and expressions, where an annotation came before or none did; the last flag tells of one if none did.
pub(crate) fn decls_due(came: bool, decls: u32, exprs: u32) -> Due
    ensures { next_due result ≡ decls_next came decls 1 exprs }
{
    if 0 < decls {
        return Due::Ask(0, Limit::NAME, Then::Flag(came, decls - 1, exprs));
    }
    if came {
        return Due::Kids(0, 1, exprs);
    }
    Due::Wrong
}

// The lowest flag of a name with so many declarations after it.
fn low_flag(came: bool, decls: u32) -> u32
    ensures { result ≡ low_flag came decls }
{
    if came {
        return 0;
    }
    if decls == 0 {
        return 1;
    }
    0
}

fn after_flag(came: bool, decls: u32, exprs: u32, flag: u32) -> Due
    ensures { next_due result ≡ after_flag came decls exprs flag }
{
    if flag == 0 {
        return decls_due(came, decls, exprs);
    }
    Due::Note(decls, exprs)
}

fn then_of(then: Then, w: u32) -> Due
    ensures { next_due result ≡ next_then then w }
{
    match then {
        Then::Nothing => Due::Kids(0, 0, 0),
        Then::Exprs => Due::Kids(0, 0, w),
        Then::Preds => Due::Kids(0, w, 0),
        Then::Count => Due::Ask(0, Limit::WORD, Then::Exprs),
        Then::Declared => Due::Ask(1, Limit::DECLARATIONS, Then::Names(1)),
        Then::Names(exprs) => Due::Kids(w, 1, exprs),
        Then::NotedDeclared => Due::Ask(1, Limit::DECLARATIONS, Then::Noted(1)),
        Then::Noted(exprs) => decls_due(false, w, exprs),
        Then::Flag(came, decls, exprs) => {
            Due::Ask(low_flag(came, decls), 1, Then::Decl(came, decls, exprs))
        }
        Then::Decl(came, decls, exprs) => after_flag(came, decls, exprs, w),
    }
}

// What must come after a tag of the shape.
fn due_of(shape: Shape) -> Due
    ensures { next_due result ≡ next_of (own_of shape) }
{
    match shape {
        Shape::Unknown => Due::Wrong,
        Shape::Plain(preds, exprs) => Due::Kids(0, preds, exprs),
        Shape::Name => Due::Ask(0, Limit::NAME, Then::Nothing),
        Shape::Value => Due::Ask(0, Limit::WORD, Then::Nothing),
        Shape::Exprs(min) => Due::Ask(min, Limit::WORD, Then::Exprs),
        Shape::Preds(min) => Due::Ask(min, Limit::WORD, Then::Preds),
        Shape::Apply => Due::Ask(0, Limit::NAME, Then::Count),
        Shape::Compr => Due::Ask(0, 3, Then::Declared),
        Shape::Quant => Due::Ask(1, Limit::DECLARATIONS, Then::Names(0)),
        Shape::NotedCompr => Due::Ask(0, 3, Then::NotedDeclared),
        Shape::NotedQuant => Due::Ask(1, Limit::DECLARATIONS, Then::Noted(0)),
    }
}

// So many names and children; over 8,192 where there are children and none may be.
pub(crate) fn least_kids(depth: u32, names: u32, preds: u32, exprs: u32) -> usize
    ensures value { result ≡ least depth (parts names preds exprs) }
    ensures upper_bound { result ≤ 70381629063165 }
{
    if depth == 0 {
        names as usize + (preds as usize + exprs as usize) * 8193
    } else {
        names as usize + (preds as usize + exprs as usize)
    }
}

// Declarations with flags, a predicate and expressions, where an annotation came.
pub(crate) fn least_later(depth: u32, decls: u32, exprs: u32) -> usize
    ensures value { result ≡ least depth (decls_next true decls 1 exprs) }
    ensures upper_bound { result ≤ 70390218997756 }
{
    decls as usize + decls as usize + least_kids(depth, 0, 1, exprs)
}

// The same after an annotation that must come.
fn least_note(depth: u32, decls: u32, exprs: u32) -> usize
    ensures value { result ≡ least depth (note (decls_next true decls 1 exprs)) }
    ensures upper_bound { result ≤ 70390218997756 }
{
    decls as usize + decls as usize + least_kids(depth, 0, 2, exprs)
}

// Declarations with flags, a predicate and expressions, where an annotation came before or none did.
fn least_decls(depth: u32, came: bool, decls: u32, exprs: u32) -> usize
    ensures value { result ≡ least depth (decls_next came decls 1 exprs) }
    ensures upper_bound { result ≤ 70390218997756 }
{
    if came {
        return least_later(depth, decls, exprs);
    }
    if decls == 0 {
        return 8193;
    }
    least_note(depth, decls, exprs)
}

// A flag, and what follows it.
fn least_flag(depth: u32, came: bool, decls: u32, exprs: u32) -> usize
    ensures value { result ≡ least depth (flag_next came decls exprs) }
    ensures upper_bound { result ≤ 70390218997757 }
{
    if came {
        return 1 + least_later(depth, decls, exprs);
    }
    1 + least_note(depth, decls, exprs)
}

fn least_decl(depth: u32, came: bool, decls: u32, exprs: u32, flag: u32) -> usize
    ensures value { result ≡ least depth (after_flag came decls exprs flag) }
    ensures upper_bound { result ≤ 70390218997756 }
{
    if flag == 0 {
        return least_decls(depth, came, decls, exprs);
    }
    least_note(depth, decls, exprs)
}

fn least_then(depth: u32, then: Then, w: u32) -> usize
    ensures value { result ≡ least depth (next_then then w) }
    ensures upper_bound { result ≤ 70390218997757 }
{
    match then {
        Then::Nothing => least_kids(depth, 0, 0, 0),
        Then::Exprs => least_kids(depth, 0, 0, w),
        Then::Preds => least_kids(depth, 0, w, 0),
        Then::Count => 1 + least_kids(depth, 0, 0, 0),
        Then::Declared => 1 + least_kids(depth, 1, 1, 1),
        Then::Names(exprs) => least_kids(depth, w, 1, exprs),
        Then::NotedDeclared => 1 + least_decls(depth, false, 1, 1),
        Then::Noted(exprs) => least_decls(depth, false, w, exprs),
        Then::Flag(came, decls, exprs) => least_flag(depth, came, decls, exprs),
        Then::Decl(came, decls, exprs) => least_decl(depth, came, decls, exprs, w),
    }
}

// The fewest words that the rest takes, if its children may be so deep.
pub fn least_words(depth: u32, due: Due) -> usize
    ensures value { result ≡ least depth (next_due due) }
    ensures upper_bound { result ≤ 70390218997758 }
{
    match due {
        Due::Kids(names, preds, exprs) => least_kids(depth, names, preds, exprs),
        Due::Ask(lo, hi, then) => 1 + least_then(depth, then, lo),
        Due::Note(decls, exprs) => least_note(depth, decls, exprs),
        Due::Wrong => 8193,
    }
}

// Whether the next word is one of the node's own.
pub fn is_own(due: Due) -> bool
    ensures { result ≡ is_own (next_due due) }
{
    match due {
        Due::Kids(names, _, _) => 0 < names,
        Due::Ask(_, _, _) => true,
        Due::Note(_, _) => false,
        Due::Wrong => true,
    }
}

// After a word of the node's own.
pub fn after_word(due: Due, w: u32) -> Due
    ensures { next_due result ≡ after_word (next_due due) w }
{
    match due {
        Due::Kids(names, preds, exprs) => {
            if names == 0 {
                return due;
            }
            if Limit::NAME < w {
                return Due::Wrong;
            }
            Due::Kids(names - 1, preds, exprs)
        }
        Due::Ask(lo, hi, then) => {
            if w < lo {
                return Due::Wrong;
            }
            if hi < w {
                return Due::Wrong;
            }
            then_of(then, w)
        }
        Due::Note(_, _) => Due::Wrong,
        Due::Wrong => Due::Wrong,
    }
}

// What must come of a child after its tag: of a predicate where predicates must still come, or else of an expression.
pub fn child_due(preds: u32, tag: u32) -> Due
    ensures { next_due result ≡ next_of (own (sort_of preds) tag) }
{
    if preds == 0 {
        return due_of(expr_shape(tag));
    }
    due_of(pred_shape(tag))
}
