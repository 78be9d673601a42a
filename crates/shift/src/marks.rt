// Marks for a row: words that hold 0, as many as the row needs.
ghost use Rattle.std.specs.Prelude.{◌≡◌, ◌≤◌, ◌<◌, length, MatchOption};
ghost use Rattle.shift.specs.Internal.Items.{Fresh};

use form::answer::Limit;

// Work with N marks, which lie in a frame of their own.
#[inline(never)]
fn with_sized<const N: usize, T, F: FnOnce(&mut [u32], &mut [u32]) -> T>(
    row: &[u32],
    out: &mut [u32],
    work: F,
) -> T
    requires row_in_bounds { (length row.now ≤ N) × (N ≤ 8192) }
    requires callable { (m : _) (o : _) → Fresh row.now m.now → F.pre work m o }
    ensures { (m : _) × (o : _) × (n : _) × (p : _) × Fresh row.now m.now × (o.now ≡ out.old) × F.post work m o result n p × (p.now ≡ out.new) }
{
    let mut marks = [0u32; N];
    work(&mut marks, out)
}

// Work on an output row with marks that hold 0, as many as the row needs; None for a row over the limit. The marks of a short row lie in a
// small frame.
pub fn with_marks<T, F: FnOnce(&mut [u32], &mut [u32]) -> T>(
    row: &[u32],
    out: &mut [u32],
    work: F,
) -> Option<T>
    requires callable { (m : _) (o : _) → Fresh row.now m.now → F.pre work m o }
    ensures { MatchOption result ((8192 < length row.now) × (out.new ≡ out.old)) (λ r. (m : _) × (o : _) × (n : _) × (p : _) × Fresh row.now m.now × (o.now ≡ out.old) × F.post work m o r n p × (p.now ≡ out.new)) }
{
    match row.len() {
        0..=64 => Some(with_sized::<64, T, F>(row, out, work)),
        65..=512 => Some(with_sized::<512, T, F>(row, out, work)),
        513..=2048 => Some(with_sized::<2048, T, F>(row, out, work)),
        2049..=8192 => Some(with_sized::<8192, T, F>(row, out, work)),
        _ => None,
    }
}
