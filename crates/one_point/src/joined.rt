// The declarations before the replaced one joined with the body's own quantifier, where no annotation there mentions one of them.
ghost use Rattle.std.specs.Prelude.{◌≡◌, true, [], ◌+◌, ◌-◌, ◌*◌, ◌≤◌, ◌<◌, length, get_or, replicate};
ghost use Rattle.form.specs.Answer.{told, written};
ghost use Rattle.replace.specs.Internal.Pieces.{placed_row};
ghost use Rattle.decls.specs.Internal.Noted.{body_start};
ghost use Rattle.one_point.specs.Internal.Reduce.{Headed, operator_in, decls_in, placed_outcome};
ghost use Rattle.one_point.specs.Internal.Noted.{Flags, with_names, names_end, Inside, full_table, notes_in, notes_of, free_words, WroteJoined, joined_row, all_ones, joining_in};

use crate::heads::operator_of;
use crate::kept::{put_kept, put_under};
use crate::marks::raise;
use decls::ends::body_start;
use decls::heads::{flag_names, write_flagged, write_noted};
use decls::used::clear_used;
use form::answer::{Answer, Refusal};
use places::sides::is_above;
use reader::lists::Table;
use replace::pieces::Source;
use replace::tables::{fill_places, put_words};

// How the annotations of the body's own quantifier join the declarations in front: not, without the replaced declaration, or with what replaces it.
#[derive(Clone, Copy)]
pub enum Joining {
    Apart,
    Unused,
    Used,
}

// Names behind a head of h words, with flags where it has them: where they end.
fn add_names(names: &[u32], h: usize, head: &mut [u32]) -> usize
    requires { (0 < h) × (length names.now ≤ 32) × (h + 2 * length names.now ≤ length head.old) × (length head.old ≤ 8256) }
    ensures value { result ≡ names_end names.now head.old h }
    ensures head_after { head.new ≡ with_names names.now head.old h }
{
    if 860 < head[0] {
        let mut flags = [0u32; 66];
        let end = flag_names(names, &mut flags);
        put_words(&flags[2..end], head, h);
        return h + 2 * names.len();
    }
    put_words(names, head, h);
    h + names.len()
}

// The declarations before the last one, joined with those of the body, which have no annotations.
pub(crate) fn put_names(
    head: &[u32],
    row: &[u32],
    part: &[u32],
    part_marks: &[u32],
    body: &[u32],
    marks: &[u32],
    out: &mut [u32],
) -> Answer
    requires { Inside head.now row.now part.now part_marks.now body.now marks.now × (get_or body.now 0 0 ≡ operator_in head.now) }
    ensures value { result ≡ told (placed_outcome (operator_in head.now) (decls_in head.now) 0 part.now body.now (length out.old)) }
    ensures out_after { out.new ≡ written (placed_outcome (operator_in head.now) (decls_in head.now) 0 part.now body.now (length out.old)) out.old }
{
    let j = (head[1] - 1) as usize;
    let k = body[1] as usize;
    let words = [0u32; 32];
    let mut joined = [0u32; 8256];
    let h = write_noted(operator_of(head), &words[..j], row, &mut joined);
    let end = add_names(&body[2..2 + k], h, &mut joined);
    joined[1] = head[1] - 1 + body[1];
    put_under(
        false,
        &joined[..end],
        1,
        part,
        part_marks,
        body,
        marks,
        2 + k,
        out,
    )
}

// Annotations with n declarations gone, each use of one of them replaced by the list: their words.
fn fill_notes(
    n: u32,
    list: &[u32],
    list_marks: &[u32],
    notes: &[u32],
    raised: &[u32],
    out: &mut [u32],
) -> Answer
    ensures value { result ≡ told (placed_row true [] (full_table n (length list.now)) n list.now list_marks.now notes.now raised.now (length out.old)) }
    ensures out_after { out.new ≡ written (placed_row true [] (full_table n (length list.now)) n list.now list_marks.now notes.now raised.now (length out.old)) out.old }
{
    let table = Table {
        words: [1; 32],
        starts: [0; 32],
        ends: [list.len(); 32],
        n: n as usize,
    };
    let source = Source {
        table: &table,
        list: list,
        list_marks: list_marks,
        row: notes,
        marks: raised,
    };
    fill_places(&[], source, 0, n, true, out)
}

// The head of the declarations before the last one and k more, whose annotations are filled and lowered: where it ends, unless it is too long.
fn write_joined(
    head: &[u32],
    row: &[u32],
    k: u32,
    list: &[u32],
    list_marks: &[u32],
    notes: &[u32],
    raised: &[u32],
    joined: &mut [u32],
) -> Option<usize>
    requires { Headed head.now × Flags head.now row.now × (k ≤ 32) × (length list.now ≤ length list_marks.now) × (length joined.old ≡ 8192) }
    ensures { WroteJoined head.now k (notes_in (get_or head.now 1 0) list.now list_marks.now notes.now raised.now) result joined.new }
{
    let words = [0u32; 32];
    let j = (head[1] - 1) as usize;
    let start = write_flagged(&words[..j], row, joined);
    let mut filled = [0u32; 8192];
    let n = fill_notes(head[1], list, list_marks, notes, raised, &mut filled).ok()?;
    if joined.len() - start < n {
        return None;
    }
    put_words(&filled[..n], joined, start);
    joined[0] = operator_of(head) + 10;
    joined[1] = head[1] - 1 + k;
    Some(start + n)
}

// The body from `from` on under that head.
fn put_joined(
    head: &[u32],
    row: &[u32],
    list: &[u32],
    list_marks: &[u32],
    raised: &[u32],
    part: &[u32],
    part_marks: &[u32],
    body: &[u32],
    marks: &[u32],
    from: usize,
    out: &mut [u32],
) -> Answer
    requires { Headed head.now × Flags head.now row.now × (get_or body.now 1 0 ≤ 32) × (2 ≤ from) × (from ≤ length body.now) × (length list.now ≤ length list_marks.now) }
    ensures value { result ≡ told (joined_row head.now (get_or body.now 1 0) (notes_in (get_or head.now 1 0) list.now list_marks.now (notes_of from body.now) raised.now) part.now part_marks.now body.now marks.now from (length out.old)) }
    ensures out_after { out.new ≡ written (joined_row head.now (get_or body.now 1 0) (notes_in (get_or head.now 1 0) list.now list_marks.now (notes_of from body.now) raised.now) part.now part_marks.now body.now marks.now from (length out.old)) out.old }
{
    let mut joined = [0u32; 8192];
    let end = write_joined(
        head,
        row,
        body[1],
        list,
        list_marks,
        &body[2..from],
        raised,
        &mut joined,
    )
    .ok_or(Refusal::OutOfLimits)?;
    put_under(
        false,
        &joined[..end],
        1,
        part,
        part_marks,
        body,
        marks,
        from,
        out,
    )
}

// Whether all words are 1.
fn are_ones(words: &[u32]) -> bool
    ensures { result ≡ all_ones words.now }
{
    words.iter().all(|w| *w == 1)
}

// How annotations join declarations in front of the last of n, by the declarations that they use.
fn how_joined(n: u32, part: &[u32], notes: &[u32], raised: &[u32], words: &mut [u32]) -> Joining
    requires { (0 < n) × (n ≤ 32) × (words.old ≡ replicate (n + 1) 1) }
    ensures { result ≡ joining_in n part.now notes.now raised.now }
{
    let m = n as usize;
    clear_used(notes, raised, 0, notes.len(), n, words);
    if !are_ones(&words[1..m]) {
        return Joining::Apart;
    }
    if words[m] == 1 {
        return Joining::Unused;
    }
    if is_above(part, n - 1) {
        return Joining::Used;
    }
    Joining::Apart
}

// The declarations before the last one, and the body's own, whose annotations end at `from`: joined where that can be. The marks of the annotations
// have a row.
fn put_raised(
    head: &[u32],
    row: &[u32],
    part: &[u32],
    part_marks: &[u32],
    body: &[u32],
    marks: &[u32],
    from: usize,
    raised: &mut [u32],
    out: &mut [u32],
) -> Answer
    requires { Inside head.now row.now part.now part_marks.now body.now marks.now × (get_or body.now 0 0 ≡ operator_in head.now + 10) × (from ≡ body_start body.now (get_or body.now 1 0)) × (length raised.old ≡ from - 2) }
    ensures value { result ≡ told (placed_outcome (operator_in head.now) (decls_in head.now) 0 part.now body.now (length out.old)) }
    ensures out_after { out.new ≡ written (placed_outcome (operator_in head.now) (decls_in head.now) 0 part.now body.now (length out.old)) out.old }
{
    let n = head[1];
    put_words(&marks[2..from], raised, 0);
    raise(raised, n - 1);
    let mut words = [1u32; 33];
    let m = n as usize;
    let how = how_joined(n, part, &body[2..from], raised, &mut words[..m + 1]);
    match how {
        Joining::Apart => put_kept(false, head, row, m - 1, part, part_marks, body, marks, out),
        Joining::Unused => put_free(head, row, raised, part, part_marks, body, marks, from, out),
        Joining::Used => put_joined(
            head, row, part, part_marks, raised, part, part_marks, body, marks, from, out,
        ),
    }
}

// The same, joined, where no annotation uses the declaration that is replaced: what stands for it is never read.
fn put_free(
    head: &[u32],
    row: &[u32],
    raised: &[u32],
    part: &[u32],
    part_marks: &[u32],
    body: &[u32],
    marks: &[u32],
    from: usize,
    out: &mut [u32],
) -> Answer
    requires { Headed head.now × Flags head.now row.now × (get_or body.now 1 0 ≤ 32) × (2 ≤ from) × (from ≤ length body.now) }
    ensures value { result ≡ told (joined_row head.now (get_or body.now 1 0) (notes_in (get_or head.now 1 0) free_words free_words (notes_of from body.now) raised.now) part.now part_marks.now body.now marks.now from (length out.old)) }
    ensures out_after { out.new ≡ written (joined_row head.now (get_or body.now 1 0) (notes_in (get_or head.now 1 0) free_words free_words (notes_of from body.now) raised.now) part.now part_marks.now body.now marks.now from (length out.old)) out.old }
{
    let mut free = [0u32; 2];
    free[0] = 1;
    put_joined(
        head, row, &free, &free, raised, part, part_marks, body, marks, from, out,
    )
}

// The declarations before the last one, and the body's own with their annotations.
pub(crate) fn put_inner(
    head: &[u32],
    row: &[u32],
    part: &[u32],
    part_marks: &[u32],
    body: &[u32],
    marks: &[u32],
    out: &mut [u32],
) -> Answer
    requires { Inside head.now row.now part.now part_marks.now body.now marks.now × (get_or body.now 0 0 ≡ operator_in head.now + 10) }
    ensures value { result ≡ told (placed_outcome (operator_in head.now) (decls_in head.now) 0 part.now body.now (length out.old)) }
    ensures out_after { out.new ≡ written (placed_outcome (operator_in head.now) (decls_in head.now) 0 part.now body.now (length out.old)) out.old }
{
    let from = body_start(body, body[1]);
    let mut raised = [0u32; 16384];
    put_raised(
        head,
        row,
        part,
        part_marks,
        body,
        marks,
        from,
        &mut raised[..from - 2],
        out,
    )
}
