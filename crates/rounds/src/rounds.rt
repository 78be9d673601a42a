// The head of the declarations that are kept, put round a body: alone, or joined with the declarations of the body's own quantifier.
ghost use Rattle.std.specs.Prelude.{◌≡◌, ◌&&◌, ◌∷◌, ◌++◌, ◌+◌, ◌≤◌, leb, length, get_or, take, drop};
ghost use Rattle.decls.specs.Internal.Noted.{decls_end, noted_head};
ghost use Rattle.rounds.specs.Internal.Round.{head_names, head_notes, round_head, round_from, can_join, join_fits, round_fits, HeadTold};

use decls::ends::decls_end;
use decls::heads::{flag_names, write_flagged, write_noted};
use form::answer::Limit;
use replace::tables::put_words;
use tree::tag::Tag;

// How long a head is, and from which word on the body follows it.
#[derive(Clone, Copy)]
pub struct Round {
    pub words: usize,
    pub from: usize,
}

// The word at i; 0 where there is none.
fn word_at(row: &[u32], i: usize) -> u32
    ensures { result ≡ get_or row.now i 0 }
{
    row.get(i).copied().unwrap_or(0)
}

// Whether a head of h words can be joined with k declarations of a body of so many words.
#[tactic(auto, unfolding(crate::specs::Internal::Round::can_join))]
fn can_join(h: usize, k: u32, words: usize) -> bool
    ensures { result ≡ can_join h k words }
{
    2 <= h && k <= 32 && 2 + k as usize <= words
}

// A tag, a number, the words that stand in the first h ones from 2 on, and the inner ones behind them, if that is no more than 8,192 words. The
// body follows from `from` on.
fn put_inner(
    tag: u32,
    m: u32,
    inner: &[u32],
    head: &mut [u32],
    h: usize,
    from: usize,
) -> Option<Round>
    requires { (2 ≤ h) × (h ≤ 8192) × (8192 ≤ length head.old) }
    ensures { HeadTold (leb (h + length inner.now) 8192) (tag ∷ m ∷ (drop 2 (take h head.old) ++ inner.now)) from result head.new }
{
    let words = h + inner.len();
    if Limit::WORDS < words {
        return None;
    }
    put_words(inner, head, h);
    head[0] = tag;
    head[1] = m;
    Some(Round { words, from })
}

// The head in the first h words, made longer by the names that the body declares, which get flags where the head has them.
#[tactic(auto, using(crate::proofs::HeadLaws::join_all), unfolding(crate::specs::Internal::Round::join_fits, decls::specs::Internal::Noted::names_fit))]
fn round_names(op: u32, body: &[u32], head: &mut [u32], h: usize) -> Option<Round>
    requires { (h ≤ 8192) × (8192 ≤ length head.old) × (2 ≤ h → get_or head.old 1 0 ≤ 32) }
    ensures { HeadTold (join_fits (take h head.old) body.now (head_names op (take h head.old) body.now)) (head_names op (take h head.old) body.now) (2 + get_or body.now 1 0) result head.new }
{
    let k = word_at(body, 1);
    if !can_join(h, k, body.len()) {
        return None;
    }
    let end = 2 + k as usize;
    let tag = head[0];
    let m = head[1] + k;
    if tag == op {
        return put_inner(tag, m, &body[2..end], head, h, end);
    }
    let mut flags = [0u32; 66];
    let e = flag_names(&body[2..end], &mut flags);
    put_inner(tag, m, &flags[2..e], head, h, end)
}

// The kept declarations, whose head stands in the first h words, in full, and the words that the body's annotated declarations become.
#[tactic(auto, using(crate::proofs::HeadLaws::join_all), unfolding(crate::specs::Internal::Round::join_fits))]
fn round_notes(
    op: u32,
    keep: &[u32],
    decls: &[u32],
    notes: &[u32],
    body: &[u32],
    head: &mut [u32],
    h: usize,
) -> Option<Round>
    requires op_bound { (op ≤ 852) × (h ≤ 8192) × (8192 ≤ length head.old) }
    requires head_value { take h head.old ≡ noted_head op keep.now decls.now 8192 }
    ensures { HeadTold (join_fits (take h head.old) body.now (head_notes op keep.now decls.now notes.now body.now)) (head_notes op keep.now decls.now notes.now body.now) (decls_end body.now 2 (get_or body.now 1 0)) result head.new }
{
    let k = word_at(body, 1);
    if !can_join(h, k, body.len()) {
        return None;
    }
    let m = head[1] + k;
    let e = write_flagged(keep, decls, head);
    let end = decls_end(body, 2, k);
    put_inner(op + 10, m, notes, head, e, end)
}

// The head of the declarations of the flagged row `decls` whose word in `keep` is 0, for an operator op, 851 or 852, put round a body. Where
// `joins` is said, it is joined with the body's own quantifier, if that has the same operator: with its names, or, where `clear` is said, with
// its annotated declarations, which become the words `notes`. It is not made where it would have more than 8,192 words, or the lent row has
// fewer.
#[tactic(auto, using(crate::proofs::HeadLaws::written), unfolding(crate::specs::Internal::Round::round_fits))]
pub fn round_head(
    op: u32,
    keep: &[u32],
    decls: &[u32],
    joins: bool,
    clear: bool,
    notes: &[u32],
    body: &[u32],
    head: &mut [u32],
) -> Option<Round>
    ensures { HeadTold (leb 8192 (length head.old) && round_fits op keep.now decls.now joins clear notes.now body.now) (round_head op keep.now decls.now joins clear notes.now body.now) (round_from op joins clear body.now) result head.new }
{
    if head.len() < Limit::WORDS || Tag::EXISTS < op {
        return None;
    }
    let h = write_noted(op, keep, decls, head);
    let first = word_at(body, 0);
    if joins && first == op {
        round_names(op, body, head, h)
    } else if joins && clear && first == op + 10 {
        round_notes(op, keep, decls, notes, body, head, h)
    } else {
        Some(Round { words: h, from: 0 })
    }
}
