// A body filled under the declarations in front and those that stay, joined with its own quantifier where only a front stands and the operator
// is the same.
ghost use Rattle.std.specs.Prelude.{◌≡◌, ◌&&◌, ◌++◌, ◌+◌, ◌≤◌, leb, length, take};
ghost use Rattle.form.specs.Answer.{told, written};
ghost use Rattle.replace.specs.Internal.Pieces.{head_words};
ghost use Rattle.replace.specs.Internal.Partial.{inner_end, inner_start, head_fits};
ghost use Rattle.replace.specs.Internal.Job.{partial_source};

use crate::emit::copy;
use crate::pieces::Source;
use crate::splice::word_at;
use crate::tables::fill_places;
use form::answer::{Answer, Refusal};

// Where the head of the body's own quantifier ends, if its declarations join those in front; else 0.
fn inner_end(tag: u32, front: &[u32], stay: &[u32], body: &[u32]) -> usize
    ensures { result ≡ inner_end tag front.now stay.now body.now }
{
    if 0 < stay.len() {
        return 0;
    }
    if front.len() == 0 {
        return 0;
    }
    if word_at(body, 0) != tag {
        return 0;
    }
    2 + (word_at(body, 1) as usize)
}

// Where the names of that head start.
fn inner_start(end: usize) -> usize
    ensures { result ≡ inner_start end }
{
    if end == 0 { 0 } else { 2 }
}

// Whether the names of a head are few enough, and the body's own head lies in it.
fn has_room(front: usize, stay: usize, from: usize, words: usize) -> bool
    ensures { result ≡ head_fits front stay from words }
{
    front <= 32 && stay <= 32 && from <= 34 && from <= words
}

// The head of a quantifier with the names of three rows, none where there is none: its length.
fn write_head(tag: u32, front: &[u32], stay: &[u32], inner: &[u32], head: &mut [u32]) -> usize
    requires { (2 + (length front.now + (length stay.now + length inner.now)) ≤ length head.old) × (length head.old ≤ 98) }
    ensures upper_bound { result ≤ length head.old }
    ensures head_after { take result head.new ≡ head_words tag (front.now ++ (stay.now ++ inner.now)) }
{
    let a = 2 + front.len();
    let b = a + stay.len();
    let c = b + inner.len();
    copy(front, head, 2);
    copy(stay, head, a);
    copy(inner, head, b);
    if c == 2 {
        return 0;
    }
    head[0] = tag;
    head[1] = (c - 2) as u32;
    c
}

// Whether what is sure to be a form under at most 32 declarations is so under a head of h words.
fn is_sure_under(h: usize, sure: bool) -> bool
    ensures { result ≡ (leb h 34 && sure) }
{
    h <= 34 && sure
}

// The declarations in front and those that stay round the source's row, with the places of its table filled, whose expressions are moved down.
// The result is checked as a form where it is not sure to be one; 7 too where there are more than 32 names of a kind.
pub fn instantiate_partial(
    tag: u32,
    front: &[u32],
    stay: &[u32],
    source: Source,
    down: u32,
    sure: bool,
    out: &mut [u32],
) -> Answer
    ensures value { result ≡ told (partial_source sure tag front.now stay.now source.entry down (length out.old)) }
    ensures out_after { out.new ≡ written (partial_source sure tag front.now stay.now source.entry down (length out.old)) out.old }
{
    let row = source.row;
    let from = inner_end(tag, front, stay, row);
    if !has_room(front.len(), stay.len(), from, row.len()) {
        return Err(Refusal::OutOfLimits);
    }
    let mut head = [0u32; 98];
    let h = write_head(tag, front, stay, &row[inner_start(from)..from], &mut head);
    fill_places(&head[..h], source, from, down, is_sure_under(h, sure), out)
}
