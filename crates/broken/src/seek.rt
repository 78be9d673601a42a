// The search for the word at which a row breaks.
ghost use Rattle.std.specs.Prelude.{◌≡◌, ◌+◌, ◌≤◌, ◌<◌, ◌&&◌, leb, eqb, length};
ghost use Rattle.tree.specs.Tag.{own};
ghost use Rattle.form.specs.Break.{parts, next_of, least};
ghost use Rattle.broken.specs.Internal.Seeks.{sort_of, next_due, leaf_in, leaf_next, Starts, SeeksOwn, SeeksChild, Seeks};

use crate::due::{
    Due, after_word, child_due, decls_due, is_own, least_kids, least_later, least_words,
};
use crate::kids::{child_head, exprs_after, no_kids};
use form::answer::Limit;
use form::head::{Head, asked};
use tree::tag::Tag;

// Whether the rest fits from `at` on, with so many words after it.
pub(crate) fn fits(at: usize, depth: u32, due: Due, need: usize) -> bool
    requires at_bound { at ≤ 8193 }
    requires need_bound { need ≤ 8192 }
    ensures { result ≡ leb (at + (least depth (next_due due) + need)) 8192 }
{
    at + (least_words(depth, due) + need) <= Limit::WORDS
}

// Where the own words of a node that stand from `at` on end, and what must come after them; or where the row breaks. Children may be so deep, and
// at least so many words must come after the node.
fn seek_own(
    row: &[u32],
    at: usize,
    due: Due,
    depth: u32,
    need: usize,
) -> Result<(usize, Due), usize>
    requires { at + (least depth (next_due due) + need) ≤ 8192 }
    ensures { SeeksOwn row.now at depth (next_due due) need result }
{
    let mut p = at;
    let mut rest = due;
    while is_own(rest) {
        if row.len() <= p {
            return Err(p);
        }
        rest = after_word(rest, row[p]);
        if !fits(p + 1, depth, rest, need) {
            return Err(p);
        }
        p += 1;
    }
    Ok((p, rest))
}

// Where the children of a node begin whose own words begin at `at`, and how many predicates and expressions they are, in the common case: its own
// words are there, its declarations have no flags, and what must come after them has room.
fn start_of(
    row: &[u32],
    at: usize,
    preds: u32,
    tag: u32,
    depth: u32,
    need: usize,
) -> Option<(usize, u32, u32)>
    requires { need ≤ 8192 }
    ensures { Starts row.now at depth (next_of (own (sort_of preds) tag)) need result }
{
    let Some(Head::Kids(end, inner_preds, inner_exprs, decls)) = child_head(row, at, preds, tag)
    else {
        return None;
    };
    if Limit::WORDS < end {
        return None;
    }
    if Limit::WORDS < end + (least_kids(depth, 0, inner_preds, inner_exprs) + need) {
        return None;
    }
    Some((end, inner_preds, inner_exprs))
}

// Whether the tag is that of a name or, where the row is not named, of an index.
fn is_leaf_tag(tag: u32, named: bool) -> bool
    ensures { result ≡ leaf_in named tag }
{
    if named {
        return tag == Tag::FREE_IDENT;
    }
    if tag == 0 {
        return false;
    }
    tag <= Tag::BOUND_IDENT
}

// Whether the tag is that of an index, which no named row has.
fn is_index(tag: u32, named: bool) -> bool
    ensures { result ≡ (named && eqb tag 2) }
{
    if named {
        return tag == Tag::BOUND_IDENT;
    }
    false
}

// Whether only expressions must come, the first of them has the tag of a name or an index, the common case, and there is room for its word.
fn is_leaf_next(
    tag: u32,
    at: usize,
    preds: u32,
    exprs: u32,
    depth: u32,
    need: usize,
    named: bool,
) -> bool
    requires { at + (least depth (parts 0 preds exprs) + need) ≤ 8192 }
    ensures { result ≡ leaf_next named depth preds exprs need at tag }
{
    if 0 < preds {
        return false;
    }
    if Limit::WORDS <= at + (least_kids(depth, 0, 0, exprs) + need) {
        return false;
    }
    is_leaf_tag(tag, named)
}

// Where a child whose tag stands at `at` ends, or where the row breaks: a predicate where predicates must still come, or else an expression.
// Its own children may be so deep, and at least so many words must come after it.
#[cycle(seekers)]
fn seek_child(
    row: &[u32],
    at: usize,
    preds: u32,
    depth: u32,
    need: usize,
    named: bool,
) -> Result<usize, usize>
    requires { (at < length row.now) × (at + (1 + need) ≤ 8192) }
    ensures { SeeksChild named row.now at depth (sort_of preds) need result }
{
    if is_index(row[at], named) {
        return Err(at);
    }
    let Some((p, inner_preds, inner_exprs)) = start_of(row, at + 1, preds, row[at], depth, need)
    else {
        let due = child_due(preds, row[at]);
        if !fits(at + 1, depth, due, need) {
            return Err(at);
        }
        return seek(row, at + 1, due, depth, need, named);
    };
    seek_kids(row, p, inner_preds, inner_exprs, depth, need, named)
}

// Where so many predicates and expressions from `at` on end, or where the row breaks. They may be so deep, and at least so many words must come
// after them.
#[cycle(seekers)]
pub(crate) fn seek_kids(
    row: &[u32],
    at: usize,
    preds: u32,
    exprs: u32,
    depth: u32,
    need: usize,
    named: bool,
) -> Result<usize, usize>
    requires { at + (least depth (parts 0 preds exprs) + need) ≤ 8192 }
    ensures { Seeks named row.now at depth (parts 0 preds exprs) need result }
{
    let mut p = at;
    let mut more_preds = preds;
    let mut more_exprs = exprs;
    while !no_kids(more_preds, more_exprs) {
        if row.len() <= p {
            return Err(p);
        }
        if is_leaf_next(row[p], p, more_preds, more_exprs, depth, need, named) {
            let Some(_) = asked(row, p + 1, 0, Limit::NAME) else {
                return Err(p + 1);
            };
            more_exprs = more_exprs.saturating_sub(1);
            p += 2;
        } else {
            let first_preds = more_preds;
            more_exprs = exprs_after(more_preds, more_exprs);
            more_preds = more_preds.saturating_sub(1);
            let more = least_kids(depth, 0, more_preds, more_exprs) + need;
            p = seek_child(row, p, first_preds, depth - 1, more, named)?;
        }
    }
    Ok(p)
}

// Where the rest of a node from `at` on ends, or where the row breaks. Its children may be so deep, and at least so many words must come after
// the node. Own words may stand again after an annotation.
#[cycle(seekers)]
pub(crate) fn seek(
    row: &[u32],
    at: usize,
    due: Due,
    depth: u32,
    need: usize,
    named: bool,
) -> Result<usize, usize>
    requires { at + (least depth (next_due due) + need) ≤ 8192 }
    ensures { Seeks named row.now at depth (next_due due) need result }
{
    let mut p = at;
    let mut rest = due;
    loop {
        let (end, next) = seek_own(row, p, rest, depth, need)?;
        p = end;
        match next {
            Due::Kids(_, preds, exprs) => {
                return seek_kids(row, p, preds, exprs, depth, need, named);
            }
            Due::Note(decls, exprs) => {
                if row.len() <= p {
                    return Err(p);
                }
                let more = least_later(depth, decls, exprs) + need;
                p = seek_child(row, p, 0, depth - 1, more, named)?;
                rest = decls_due(true, decls, exprs);
            }
            // No own word is left here, so neither of these can be.
            Due::Ask(_, _, _) => return Err(p),
            Due::Wrong => return Err(p),
        }
    }
}
