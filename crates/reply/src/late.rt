// A row's 1 and 2, and then the 8 of brackets that balance but do not hold one node, pair or place each.
ghost use Rattle.std.specs.Prelude.{◌≡◌, []};
ghost use Rattle.form.specs.Answer.{told, answer, with_form, needs};
ghost use Rattle.line.specs.Line.{list_row};
ghost use Rattle.reply.specs.Reply.{text_of, spelled_form, spelled_list, spelled_names};
ghost use Rattle.reply.specs.Internal.Parts.{Held, form_words};

use broken::position::broken_list;
use form::answer::{Answer, Kind, Limit, ListKind, Refusal};
use line::line::Part;
use reader::check::{is_expr, is_of_kind};
use reader::lists::{Table, mark_list};

// A row's check, where it is known whether the text is the spelling of a form.
fn check_row(row: &[u32], kind: Kind, fits: bool) -> Answer
    ensures { result ≡ told (with_form kind row.now (λ s f. needs Refusal.NotACommand fits (answer []))) }
{
    reader::check::check(row, kind)?;
    if !fits {
        return Err(Refusal::NotACommand);
    }
    Ok(0)
}

// Whether the row is one form of the kind and the text its spelling. A row whose text is its spelling is a form of the sort of its first tag;
// where it is not of the kind, the check says where it breaks.
pub fn check_text(text: &[u8], row: &[u32], kind: Kind) -> Answer
    ensures { result ≡ told (spelled_form kind text.now row.now (answer [])) }
{
    if !spell::fits::fits_form(text, row) {
        return check_row(row, kind, false);
    }
    let expression = is_expr(row, kind);
    let first = is_expr(row, Kind::Either);
    if expression != first || !is_of_kind(row, kind) {
        return check_row(row, kind, true);
    }
    Ok(0)
}

// Whether the row is a list of the kind and the text its spelling.
pub fn check_list_text(text: &[u8], row: &[u32], kind: ListKind) -> Answer
    ensures { result ≡ told (spelled_list kind text.now row.now (answer [])) }
{
    if Limit::WORDS < row.len() {
        return Err(Refusal::TooLong);
    }
    let mut marks = [0u32; 1];
    let mut table = Table::new();
    if !mark_list(row, kind, &mut marks, &mut table) {
        return Err(Refusal::Broken(broken_list(row, kind)));
    }
    if !spell::fits::fits_list(text, row, kind) {
        return Err(Refusal::NotACommand);
    }
    Ok(0)
}

// Whether the row is short enough and the text its spelling as a list of names.
pub fn check_names_text(text: &[u8], row: &[u32]) -> Answer
    ensures { result ≡ told (spelled_names text.now row.now (answer [])) }
{
    if Limit::WORDS < row.len() {
        return Err(Refusal::TooLong);
    }
    if !spell::fits::fits_names(text, row) {
        return Err(Refusal::NotACommand);
    }
    Ok(0)
}

// The form of a line.
pub(crate) fn check_form_part(line: &[u8], row: &[u32], part: Part, kind: Kind) -> Answer
    requires { Held line.now row.now (form_words line.now) part }
    ensures { result ≡ told (spelled_form kind (text_of line.now part) (form_words line.now) (answer [])) }
{
    if Limit::WORDS < part.count {
        return Err(Refusal::TooLong);
    }
    check_text(&line[part.start..part.end], &row[..part.count], kind)
}

// The list of a line.
pub(crate) fn check_list_part(line: &[u8], row: &[u32], part: Part, kind: ListKind) -> Answer
    requires { Held line.now row.now (list_row line.now) part }
    ensures { result ≡ told (spelled_list kind (text_of line.now part) (list_row line.now) (answer [])) }
{
    if Limit::WORDS < part.count {
        return Err(Refusal::TooLong);
    }
    check_list_text(&line[part.start..part.end], &row[..part.count], kind)
}

// The names of a line.
pub(crate) fn check_names_part(line: &[u8], row: &[u32], part: Part) -> Answer
    requires { Held line.now row.now (list_row line.now) part }
    ensures { result ≡ told (spelled_names (text_of line.now part) (list_row line.now) (answer [])) }
{
    if Limit::WORDS < part.count {
        return Err(Refusal::TooLong);
    }
    check_names_text(&line[part.start..part.end], &row[..part.count])
}
