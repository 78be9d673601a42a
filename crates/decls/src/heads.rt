// Heads of quantifiers with the declarations of a row that are kept: the declarations stand with flags from word 2 of the row on, and have a
// word each, which is 0 for one that is kept.
ghost use Rattle.std.specs.Prelude.{◌≡◌, map, ◌+◌, ◌*◌, ◌≤◌, length, take};
ghost use Rattle.tree.specs.Form.{pick, encode_decls};
ghost use Rattle.rules.specs.Fill.{unnoted, unlisted};
ghost use Rattle.shift.specs.Internal.Items.{store};
ghost use Rattle.decls.specs.Internal.Noted.{head_fits, noted_head, flagged_end, flagged_parts, names_fit};

use crate::parts::{count_kept, keeps_note, write_parts};
use form::answer::Limit;
use tree::tag::Tag;

// Whether there are at most 32 words, two words more in the row, no more than a form has, and room for as many as it has.
#[tactic(auto, unfolding(crate::specs::Internal::Noted::head_fits))]
fn has_room(words: &[u32], row: &[u32], room: usize) -> bool
    ensures { result ≡ head_fits (length words.now) (length row.now) room }
{
    words.len() <= 32
        && 2 + words.len() <= row.len()
        && row.len() <= Limit::WORDS
        && row.len() <= room
}

fn tag_for(op: u32, full: bool) -> u32
    requires { op ≤ 852 }
    ensures { result ≡ pick full (op + 10) op }
{
    if full { op + 10 } else { op }
}

// The head of a quantifier with an operator and the declarations that are kept: its length. They are written in full where one of them has an
// annotation, by their names where none has; where none is kept, or there is no room, there is no head.
#[tactic(auto, using(crate::proofs::HeadLaws::written_heads), unfolding(crate::specs::Internal::Noted::noted_head, crate::specs::Internal::Noted::parts_head))]
pub fn write_noted(op: u32, words: &[u32], row: &[u32], head: &mut [u32]) -> usize
    ensures upper_bound { result ≤ length head.old }
    ensures head_after { take result head.new ≡ noted_head op words.now row.now (length head.old) }
{
    if Tag::EXISTS < op || !has_room(words, row, head.len()) {
        return 0;
    }
    let n = count_kept(words);
    if n == 0 {
        return 0;
    }
    let full = keeps_note(words, row);
    let end = write_parts(words, row, full, head);
    head[0] = tag_for(op, full);
    head[1] = n;
    end
}

// The declarations that are kept, in full, stored from word 2 on: where they end; 0 where there is no room, and nothing is changed then.
#[tactic(auto, using(crate::proofs::HeadLaws::written_heads), unfolding(crate::specs::Internal::Noted::flagged_parts, crate::specs::Internal::Noted::flagged_end, shift::specs::Internal::Items::store))]
pub fn write_flagged(words: &[u32], row: &[u32], head: &mut [u32]) -> usize
    ensures value { result ≡ flagged_end words.now row.now (length head.old) }
    ensures head_after { head.new ≡ store head.old 2 (flagged_parts words.now row.now (length head.old)) }
{
    if !has_room(words, row, head.len()) {
        return 0;
    }
    write_parts(words, row, true, head)
}

// Each name with the flag of no annotation, stored from word 2 on: where they end.
#[tactic(auto, using(crate::proofs::HeadLaws::flag_steps))]
fn put_flags(names: &[u32], out: &mut [u32]) -> usize
    requires { 2 + 2 * length names.now ≤ length out.old }
    ensures value { result ≡ 2 + 2 * length names.now }
    ensures out_after { out.new ≡ store out.old 2 (encode_decls (unlisted (map unnoted names.now))) }
{
    let mut p = 2;
    for name in names {
        out[p] = *name;
        out[p + 1] = 0;
        p += 2;
    }
    p
}

// Names as declarations with flags, stored from word 2 on: where they end; 0 where there are more than 32 or no room, and nothing is changed
// then.
#[tactic(auto, unfolding(crate::specs::Internal::Noted::names_fit))]
pub fn flag_names(names: &[u32], out: &mut [u32]) -> usize
    ensures value { result ≡ pick (names_fit (length names.now) (length out.old)) (2 + 2 * length names.now) 0 }
    ensures out_after { out.new ≡ pick (names_fit (length names.now) (length out.old)) (store out.old 2 (encode_decls (unlisted (map unnoted names.now)))) out.old }
{
    if 32 < names.len() || out.len() < 2 + 2 * names.len() {
        return 0;
    }
    put_flags(names, out)
}
