// Which of a quantifier's declarations are used by the words of a part of a row.
ghost use Rattle.std.specs.Prelude.{◌≡◌, ◌+◌, ◌≤◌, length, drop};
ghost use Rattle.decls.specs.Internal.Used.{open_items, cleared, cleared_in};

use shift::slots::slot_of;

// Sets the word of each declaration that the row uses to 0: each word of the row is an index or not by the mark and the word before it. It stays a
// function of its own, so that its loop has the registers for itself.
#[inline(never)]
#[tactic(auto, using(crate::proofs::ClearLaws::clear_steps))]
fn clear_words(row: &[u32], marks: &[u32], n: u32, words: &mut [u32])
    requires { (length words.old ≡ n + 1) × (length row.now ≤ length marks.now) }
    ensures { drop 1 words.new ≡ cleared n (drop 1 words.old) (open_items n 0 0 row.now marks.now) }
{
    for i in 1..row.len() {
        let slot = slot_of(marks[i - 1], row[i - 1], row[i], n, 0);
        words[slot] = 0;
    }
}

// A word for each of n declarations, the outermost first, behind one that is passed over: sets the word of each declaration that the words of
// the row from `from` up to `to` use to 0. Nothing is changed where these words or their marks are not there, or there are not n words and one.
#[tactic(auto, using(crate::proofs::ClearLaws::clear_cases))]
pub fn clear_used(row: &[u32], marks: &[u32], from: usize, to: usize, n: u32, words: &mut [u32])
    ensures { drop 1 words.new ≡ cleared_in n row.now marks.now from to words.old }
{
    if from <= to && to <= row.len() && to <= marks.len() && words.len() == n as usize + 1 {
        clear_words(&row[from..to], &marks[from..to], n, words);
    }
}
