// Declarations round a body, with the places of a table filled.
ghost use Rattle.std.specs.Prelude.{◌≡◌, ◌≤◌, map, length, take, drop};
ghost use Rattle.tree.specs.Tag.{pred};
ghost use Rattle.rules.specs.Fill.{unnoted};
ghost use Rattle.form.specs.Answer.{told, written, finish};
ghost use Rattle.replace.specs.Internal.Pieces.{kept_words};
ghost use Rattle.member.specs.Internal.Member.{SetIn, FillingOf, Unannotated, filled_body, front_of};
ghost use Rattle.member.specs.Internal.Noted.{plain_of};

use crate::member::Comprehension;
use crate::noted::fill_noted;
use form::answer::Answer;
use replace::instantiate_partial::instantiate_partial;
use replace::pieces::Source;
use tree::tag::Tag;

// How many words stand before the first that is not 0; 0 where each is 0.
pub(crate) fn front_of(words: &[u32]) -> usize
    ensures { result ≡ front_of 0 words.now }
{
    words.iter().position(|w| *w != 0).unwrap_or(0)
}

// The names whose word is 0, at the start of the output row: where they end.
fn keep_names(words: &[u32], names: &[u32], out: &mut [u32]) -> usize
    requires { (length words.now ≡ length names.now) × (length names.now ≤ length out.old) }
    ensures upper_bound { result ≤ length out.old }
    ensures out_after { take result out.new ≡ kept_words words.now names.now }
{
    let mut p = 0;
    for (i, w) in words.iter().enumerate() {
        if *w == 0 {
            out[p] = names[i];
            p += 1;
        }
    }
    p
}

// The kept names round the body, of which j stand before the outermost filled place, with its places filled.
fn fill_kept(kept: &[u32], j: usize, source: &Source, out: &mut [u32]) -> Answer
    requires { j ≤ length kept.now }
    ensures value { result ≡ told (plain_of (take j kept.now) (drop j kept.now) source.now (length out.old)) }
    ensures out_after { out.new ≡ written (plain_of (take j kept.now) (drop j kept.now) source.now (length out.old)) out.old }
{
    instantiate_partial(Tag::EXISTS, &kept[..j], &kept[j..], *source, 0, false, out)
}

// The names round the body, with its places filled. The body does not begin with an annotated existence.
fn fill_plain(names: &[u32], source: &Source, out: &mut [u32]) -> Answer
    requires { FillingOf (length names.now) source.now × Unannotated source.now.row.now }
    ensures value { (x : FillingOf (length names.now) source.now) → result ≡ told (finish pred (length out.old) (filled_body (map unnoted names.now) x.places x.body)) }
    ensures out_after { (x : FillingOf (length names.now) source.now) → out.new ≡ written (finish pred (length out.old) (filled_body (map unnoted names.now) x.places x.body)) out.old }
{
    let n = names.len();
    let words = &source.table.words[..n];
    let mut stays = [0u32; 32];
    let k = keep_names(words, names, &mut stays);
    let j = front_of(words);
    fill_kept(&stays[..k], j, source, out)
}

// The declarations of the comprehension round the body, with its places filled.
#[tactic(auto, using(crate::proofs::BodyLaws::positions))]
pub(crate) fn fill_body(set: Comprehension, source: &Source, out: &mut [u32]) -> Answer
    requires { SetIn source.now.list.now set × FillingOf set.n source.now × (length source.now.list.now ≤ 8192) }
    ensures value { (x : SetIn source.now.list.now set) (y : FillingOf set.n source.now) → result ≡ told (finish pred (length out.old) (filled_body x.decls y.places y.body)) }
    ensures out_after { (x : SetIn source.now.list.now set) (y : FillingOf set.n source.now) → out.new ≡ written (finish pred (length out.old) (filled_body x.decls y.places y.body)) out.old }
{
    if source.list[set.at] != Tag::COMPREHENSION_SET || source.row[0] == Tag::NOTED_EXISTS {
        return fill_noted(set, source, out);
    }
    fill_plain(&source.list[set.at + 3..set.guard], source, out)
}
