// Declarations with annotations, of which one is replaced and the others are kept round the body.
ghost use Rattle.std.specs.Prelude.{◌≡◌, ◌-◌, ◌≤◌, ◌<◌, ◌⊎◌, length, get_or};
ghost use Rattle.form.specs.Answer.{told, written};
ghost use Rattle.one_point.specs.Internal.Reduce.{Headed, one_table};
ghost use Rattle.one_point.specs.Internal.Noted.{under_row, kept_row};

use crate::heads::operator_of;
use decls::heads::write_noted;
use form::answer::Answer;
use reader::lists::Table;
use replace::pieces::Source;
use replace::tables::fill_places;

// A table of n places, of which the first is filled by a part that ends at `end`.
pub(crate) fn one_filled(n: usize, end: usize) -> Table
    ensures { result ≡ one_table n end }
{
    let mut words = [0u32; 32];
    words[0] = 1;
    Table {
        words: words,
        starts: [0; 32],
        ends: [end; 32],
        n: n,
    }
}

// The head, and the body from `from` on with the first of its outermost m declarations replaced. The result is checked as a form where it is not
// sure to be one.
pub(crate) fn put_under(
    sure: bool,
    head: &[u32],
    m: usize,
    part: &[u32],
    part_marks: &[u32],
    body: &[u32],
    marks: &[u32],
    from: usize,
    out: &mut [u32],
) -> Answer
    requires { m ≤ 32 }
    ensures value { result ≡ told (under_row sure head.now m part.now part_marks.now body.now marks.now from (length out.old)) }
    ensures out_after { out.new ≡ written (under_row sure head.now m part.now part_marks.now body.now marks.now from (length out.old)) out.old }
{
    let table = one_filled(m, part.len());
    let source = Source {
        table: &table,
        list: part,
        list_marks: part_marks,
        row: body,
        marks: marks,
    };
    fill_places(head, source, from, m as u32, sure, out)
}

// The declarations but the one at p round the body, under a head of at most N words. The result is checked as a form where it is not sure to be one.
fn put_kept_in<const N: usize>(
    sure: bool,
    head: &[u32],
    row: &[u32],
    p: usize,
    part: &[u32],
    part_marks: &[u32],
    body: &[u32],
    marks: &[u32],
    out: &mut [u32],
) -> Answer
    requires { Headed head.now × (p < get_or head.now 1 0) × (N ≤ 8192) × ((length row.now ≤ N) ⊎ (N ≡ 8192)) }
    ensures value { result ≡ told (kept_row sure head.now row.now p part.now part_marks.now body.now marks.now (length out.old)) }
    ensures out_after { out.new ≡ written (kept_row sure head.now row.now p part.now part_marks.now body.now marks.now (length out.old)) out.old }
{
    let n = head[1] as usize;
    let mut words = [0u32; 32];
    words[p] = 1;
    let mut kept = [0u32; N];
    let h = write_noted(operator_of(head), &words[..n], row, &mut kept);
    put_under(
        sure,
        &kept[..h],
        n - p,
        part,
        part_marks,
        body,
        marks,
        0,
        out,
    )
}

// The same, with a short head where the row is short.
pub(crate) fn put_kept(
    sure: bool,
    head: &[u32],
    row: &[u32],
    p: usize,
    part: &[u32],
    part_marks: &[u32],
    body: &[u32],
    marks: &[u32],
    out: &mut [u32],
) -> Answer
    requires { Headed head.now × (p < get_or head.now 1 0) }
    ensures value { result ≡ told (kept_row sure head.now row.now p part.now part_marks.now body.now marks.now (length out.old)) }
    ensures out_after { out.new ≡ written (kept_row sure head.now row.now p part.now part_marks.now body.now marks.now (length out.old)) out.old }
{
    if row.len() <= 256 {
        return put_kept_in::<256>(sure, head, row, p, part, part_marks, body, marks, out);
    }
    put_kept_in::<8192>(sure, head, row, p, part, part_marks, body, marks, out)
}
