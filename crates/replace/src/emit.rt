// Words stored in the output row and answered.
ghost use Rattle.std.specs.Prelude.{◌≡◌, false, ◌+◌, ◌≤◌, length};
ghost use Rattle.form.specs.Answer.{told, written};
ghost use Rattle.shift.specs.Internal.Items.{store};
ghost use Rattle.replace.specs.Internal.Pieces.{fitted, short_words, emitted};

use form::answer::{Answer, Kind, Limit, Refusal};

// The words, stored at `at`.
pub(crate) fn copy(words: &[u32], out: &mut [u32], at: usize)
    requires { at + length words.now ≤ length out.old }
    ensures { out.new ≡ store out.old at words.now }
{
    out[at..at + words.len()].copy_from_slice(words);
}

// The words as an answer, where the output row has room for them.
fn emit_fitted(words: &[u32], out: &mut [u32]) -> Answer
    ensures value { result ≡ told (fitted words.now (length out.old)) }
    ensures out_after { out.new ≡ written (fitted words.now (length out.old)) out.old }
{
    if out.len() < words.len() {
        return Err(Refusal::OutputTooShort);
    }
    copy(words, out, 0);
    Ok(words.len())
}

// The same, if they are a form of the kind.
pub(crate) fn emit(kind: Kind, words: &[u32], out: &mut [u32]) -> Answer
    ensures value { result ≡ told (emitted false kind words.now (length out.old)) }
    ensures out_after { out.new ≡ written (emitted false kind words.now (length out.old)) out.old }
{
    if !reader::check::is_form(words, kind) {
        return Err(Refusal::OutOfLimits);
    }
    emit_fitted(words, out)
}

// The same, if there are not more than a form has.
pub(crate) fn emit_short(words: &[u32], out: &mut [u32]) -> Answer
    ensures value { result ≡ told (short_words words.now (length out.old)) }
    ensures out_after { out.new ≡ written (short_words words.now (length out.old)) out.old }
{
    if Limit::WORDS < words.len() {
        return Err(Refusal::OutOfLimits);
    }
    emit_fitted(words, out)
}
