// The declarations of a quantifier by slots: which one a word of the body uses.
ghost use Rattle.std.specs.Prelude.{◌≡◌};
ghost use Rattle.shift.specs.Internal.Items.{slot_for};

use tree::tag::Tag;

// The slot of the declaration that the word v behind a tag t with the mark m uses: 1 for the outermost of n, 0 for one further out, and
// `other` where it is no index that dangles in the body. No branch depends on the words.
pub fn slot_of(m: u32, t: u32, v: u32, n: u32, other: u32) -> usize
    ensures { result ≡ slot_for n other m t v }
{
    let base = std::num::wrapping_sub_u64(m as u64, (n as u64) + 1);
    let word = v as u64;
    let index = std::num::wrapping_sub_u64(word, base);
    let slot = (n as u64).saturating_sub(index);
    let dangles = (t == Tag::BOUND_IDENT) & (base <= word);
    if dangles {
        return slot as usize;
    }
    other as usize
}
