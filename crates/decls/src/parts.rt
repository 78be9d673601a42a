// The parts of a row's declarations that are kept: in full, or their names alone.
ghost use Rattle.std.specs.Prelude.{◌≡◌, not, ◌&&◌, ◌+◌, ◌≤◌, ◌<◌, eqb, length, get_or};
ghost use Rattle.tree.specs.Form.{pick};
ghost use Rattle.shift.specs.Internal.Items.{store};
ghost use Rattle.decls.specs.Internal.Noted.{kept_in, keeps_note, part_if, kept_parts};

use crate::ends::decl_end;
use replace::tables::put_words;

// How many of the words are 0.
#[tactic(auto, using(crate::proofs::HeadLaws::kept_counted))]
pub(crate) fn count_kept(words: &[u32]) -> u32
    requires { length words.now ≤ 32 }
    ensures { result ≡ kept_in words.now }
{
    words.iter().filter(|w| **w == 0).count() as u32
}

// Whether the declaration at p, whose word is w, is kept and has an annotation.
fn is_noted(row: &[u32], p: usize, w: u32) -> bool
    ensures { result ≡ (eqb w 0 && not (eqb (get_or row.now (p + 1) 0) 0)) }
{
    w == 0 && matches!(row.get(p..), Some([_, flag, ..]) if *flag != 0)
}

// Whether one of the declarations whose word is 0 has an annotation.
#[tactic(auto, using(crate::proofs::NotedLaws::note_steps))]
pub(crate) fn keeps_note(words: &[u32], row: &[u32]) -> bool
    ensures { result ≡ keeps_note row.now words.now 2 }
{
    let mut p = 2;
    for w in words {
        if is_noted(row, p, *w) {
            return true;
        }
        p = decl_end(row, p);
    }
    false
}

// The words from p up to e, stored at q if w is 0: where the next ones go.
#[tactic(auto, using(crate::proofs::NotedLaws::part_cases))]
fn put_part(row: &[u32], p: usize, e: usize, w: u32, head: &mut [u32], q: usize) -> usize
    requires p_le_e { (p ≤ e) × (p < length row.now → e ≤ length row.now) }
    requires row_in_bounds { q + length (part_if w p e row.now) ≤ length head.old }
    ensures value { result ≡ q + length (part_if w p e row.now) }
    ensures head_after { head.new ≡ store head.old q (part_if w p e row.now) }
{
    if w != 0 || row.len() <= p {
        return q;
    }
    put_words(&row[p..e], head, q);
    q + (e - p)
}

// Where the part of a declaration from p up to e ends: there, or after its name.
fn part_end(full: bool, p: usize, e: usize) -> usize
    requires { p ≤ 8192 }
    ensures { result ≡ pick full e (p + 1) }
{
    if full { e } else { p + 1 }
}

// The declarations whose word is 0, in full or their names alone, stored from 2 on: where they end.
#[tactic(auto, using(crate::proofs::NotedLaws::part_steps))]
pub(crate) fn write_parts(words: &[u32], row: &[u32], full: bool, head: &mut [u32]) -> usize
    requires { (2 ≤ length row.now) × (length row.now ≤ 8192) × (2 + length (kept_parts full row.now words.now 2) ≤ length head.old) }
    ensures value { result ≡ 2 + length (kept_parts full row.now words.now 2) }
    ensures head_after { head.new ≡ store head.old 2 (kept_parts full row.now words.now 2) }
{
    let mut p = 2;
    let mut q = 2;
    for w in words {
        let e = decl_end(row, p);
        let b = part_end(full, p, e);
        q = put_part(row, p, b, *w, head, q);
        p = e;
    }
    q
}
