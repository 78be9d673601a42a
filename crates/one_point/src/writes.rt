// Words written into the output row: parts copied, and nodes rebuilt from what is left of their children.
ghost use Rattle.std.specs.Prelude.{◌≡◌, List, ℕ, ◌+◌, ◌-◌, ◌<◌, ◌≤◌, length, get_or, take, drop};
ghost use Rattle.std.specs.Option.{is_none, unwrap_or};
ghost use Rattle.tree.specs.Form.{Form, Forms, count, encode, encode_all};
ghost use Rattle.reader.specs.Internal.Reads.{mark, mark_all};
ghost use Rattle.rules.specs.Scan.{negate, joined};
ghost use Rattle.places.specs.Internal.Wrote.{Wrote};
ghost use Rattle.one_point.specs.Internal.Writes.{Neat, left_words, is_gone};
ghost use Rattle.one_point.specs.Internal.Marks.{mark_left, ClearFrom};

use replace::tables::put_words;
use tree::tag::Tag;

// Copies a part of the row to `pos`.
pub(crate) fn copy_part(row: &[u32], from: usize, to: usize, out: &mut [u32], pos: usize) -> usize
    requires { (from ≤ to) × (to ≤ length row.now) × (pos + (to - from) ≤ length out.old) }
    ensures wrote { Wrote pos out.old (take (to - from) (drop from row.now)) result out.new }
    ensures value { result ≡ pos + (to - from) }
{
    put_words(&row[from..to], out, pos);
    pos + (to - from)
}

// Moves the words from two behind `pos` up to `end` down to `pos`; those from `end` on stay.
fn move_down(out: &mut [u32], pos: usize, end: usize) -> usize
    requires { (pos + 2 ≤ end) × (end ≤ length out.old) }
    ensures wrote { Wrote pos out.old (take (end - (pos + 2)) (drop (pos + 2) out.old)) result out.new }
    ensures out_unchanged { drop end out.new ≡ drop end out.old }
{
    out.copy_within(pos + 2..end, pos);
    end - 2
}

// Moves the marks of the words from two behind `pos` up to `end` down to `pos`.
fn move_marks_down(marks: &mut [u32], pos: usize, end: usize)
    requires { (pos + 2 ≤ end) × (end ≤ length marks.old) }
    ensures { (f : Form) (ms : List ℕ) → ClearFrom pos ms → end ≡ pos + 2 + length (encode f) → marks.old ≡ mark f (pos + 2) 0 ms → marks.new ≡ mark f pos 0 ms }
{
    let n = move_down(marks, pos, end);
    marks[n] = 0;
    marks[n + 1] = 0;
}

// An associative node of k children that stand two words behind `pos`: where what is left of it ends. Of none nothing is, of one that child.
pub(crate) fn finish_junction(
    out: &mut [u32],
    pos: usize,
    end: usize,
    tag: u32,
    k: u32,
) -> Option<usize>
    requires { (pos + 2 ≤ end) × (end ≤ length out.old) }
    ensures { (fs : Forms) → k ≡ count fs → Wrote (pos + 2) out.old (encode_all fs) end out.old → (is_none result ≡ is_gone (joined tag fs)) × Wrote pos out.old (left_words (joined tag fs)) (unwrap_or result pos) out.new }
{
    if k == 0 {
        return None;
    }
    if k == 1 {
        return Some(move_down(out, pos, end));
    }
    out[pos] = tag;
    out[pos + 1] = k;
    Some(end)
}

// The marks of an associative node of k children that stand two words behind `pos`.
pub(crate) fn finish_marks(marks: &mut [u32], pos: usize, end: usize, k: u32)
    requires { (pos + 2 ≤ end) × (end ≤ length marks.old) }
    ensures { (t : ℕ) (fs : Forms) (ms : List ℕ) → ClearFrom pos ms → k ≡ count fs → end ≡ pos + 2 + length (encode_all fs) → marks.old ≡ mark_all fs (pos + 2) 0 ms → marks.new ≡ mark_left (joined t fs) pos ms }
{
    if k == 1 {
        move_marks_down(marks, pos, end);
    }
}

// The predicate that stands behind `pos`, negated, with its marks.
pub(crate) fn finish_not(out: &mut [u32], marks: &mut [u32], pos: usize, end: usize) -> usize
    requires { (pos + 2 ≤ end) × (end ≤ length out.old) × (end ≤ length marks.old) }
    ensures wrote { (f : Form) → Neat f → Wrote (pos + 1) out.old (encode f) end out.old → Wrote pos out.old (encode (negate f)) result out.new }
    ensures marks_after { (f : Form) (ms : List ℕ) → Neat f → Wrote (pos + 1) out.old (encode f) end out.old → ClearFrom pos ms → marks.old ≡ mark f (pos + 1) 0 ms → marks.new ≡ mark (negate f) pos 0 ms }
{
    if out[pos + 1] == Tag::NOT {
        move_marks_down(marks, pos, end);
        return move_down(out, pos, end);
    }
    out[pos] = Tag::NOT;
    end
}

// The predicate that stands at `pos`, negated twice, with its marks: only of two nots one in the other is anything changed, which are gone.
pub(crate) fn finish_twice(out: &mut [u32], marks: &mut [u32], pos: usize, end: usize) -> usize
    requires { (pos < end) × (end ≤ length out.old) × (end ≤ length marks.old) × (get_or out.old pos 0 ≡ 8 → pos + 2 ≤ end) }
    ensures wrote { (f : Form) → Neat f → Wrote pos out.old (encode f) end out.old → Wrote pos out.old (encode (negate (negate f))) result out.new }
    ensures marks_after { (f : Form) (ms : List ℕ) → Neat f → Wrote pos out.old (encode f) end out.old → ClearFrom pos ms → marks.old ≡ mark f pos 0 ms → marks.new ≡ mark (negate (negate f)) pos 0 ms }
{
    if out[pos] != Tag::NOT {
        return end;
    }
    if out[pos + 1] != Tag::NOT {
        return end;
    }
    move_marks_down(marks, pos, end);
    move_down(out, pos, end)
}
