// The checks of a command's list and form, where they lie in the line.
ghost use Rattle.std.specs.Prelude.{◌≡◌, [], ◌≤◌};
ghost use Rattle.form.specs.Answer.{told, answer};
ghost use Rattle.line.specs.Line.{list_row};
ghost use Rattle.reply.specs.Reply.{text_of, spelled_args};
ghost use Rattle.reply.specs.Internal.Parts.{Held, HeldBoth, parts_test};

use crate::late::{check_form_part, check_list_part, check_names_part};
use form::answer::{Answer, Limit, ListKind};
use line::line::{Part, Parts};
use rules::command::{Args, args_of, kind_of};

// The list's check, where there is a list.
fn check_list(line: &[u8], list: &[u32], args: Args, part: Part) -> Answer
    requires { Held line.now list.now (list_row line.now) part }
    ensures { result ≡ told (spelled_args args (text_of line.now part) (list_row line.now) (answer [])) }
{
    match args {
        Args::Nothing | Args::Offset => Ok(0),
        Args::Names => check_names_part(line, list, part),
        Args::Pairs => check_list_part(line, list, part, ListKind::Pairs),
        Args::Places => check_list_part(line, list, part, ListKind::Places),
    }
}

// The form's check, and then the list's.
pub(crate) fn check_parts(line: &[u8], list: &[u32], row: &[u32], parts: Parts) -> Answer
    requires { HeldBoth line.now list.now row.now parts }
    ensures { result ≡ told (parts_test line.now parts (answer [])) }
{
    let command = parts.command;
    check_form_part(line, row, parts.form, kind_of(command))?;
    check_list(line, list, args_of(command), parts.list)
}

// The number of a part's words, as far as a row can hold them.
pub(crate) fn words_of(part: Part) -> usize
    ensures { (result ≤ 8192) × (part.count ≤ 8192 → result ≡ part.count) }
{
    part.count.min(Limit::WORDS)
}
