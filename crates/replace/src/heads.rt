// The head of a quantified row: its declarations, and those of them that are kept.
ghost use Rattle.std.specs.Prelude.{◌≡◌, ◌+◌, ◌≤◌, length, take, drop};
ghost use Rattle.shift.specs.Internal.Items.{store};
ghost use Rattle.replace.specs.Internal.Pieces.{declared_in, kept_words, kept_head};

use tree::tag::Tag;

// The number of declarations of a row that is a quantified predicate without annotations; 0 for any other.
#[tactic(auto, unfolding(crate::specs::Internal::Pieces::declared_in))]
pub fn declared(row: &[u32]) -> u32
    ensures { result ≡ declared_in row.now }
{
    match row {
        [Tag::FOR_ALL | Tag::EXISTS, n, ..] => *n,
        _ => 0,
    }
}

// The names of the row whose word is 0, stored from 2 on: where they end.
fn write_names(words: &[u32], row: &[u32], head: &mut [u32]) -> usize
    requires words_in_bounds { 2 + length words.now ≤ length row.now }
    requires words_in_bounds_2 { 2 + length words.now ≤ length head.old }
    ensures value { result ≡ 2 + length (kept_words words.now (drop 2 row.now)) }
    ensures head_after { head.new ≡ store head.old 2 (kept_words words.now (drop 2 row.now)) }
{
    let mut p = 2;
    for (i, w) in words.iter().enumerate() {
        if *w == 0 {
            head[p] = row[i + 2];
            p += 1;
        }
    }
    p
}

// The head of the quantifier with the declarations that are kept, none where none is: its length. Elsewhere than where there are at most 32
// words, a name for each and room for the head, there is none.
pub fn write_head(words: &[u32], row: &[u32], head: &mut [u32]) -> usize
    ensures upper_bound { result ≤ length head.old }
    ensures head_after { take result head.new ≡ kept_head words.now row.now (length head.old) }
{
    if 32 < words.len() || row.len() < 2 + words.len() || head.len() < 2 + words.len() {
        return 0;
    }
    let p = write_names(words, row, head);
    if p == 2 {
        return 0;
    }
    head[0] = row[0];
    head[1] = (p - 2) as u32;
    p
}
