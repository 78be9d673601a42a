// The answer to a line of commands: a row, and its bytes.
ghost use Rattle.std.specs.Prelude.{◌≡◌, length};
ghost use Rattle.form.specs.Answer.{told, written};
ghost use Rattle.reply.specs.Reply.{enough_rows, line_outcome, reply_outcome};

use crate::commands::{check_parts, words_of};
use form::answer::{Answer, Limit, Refusal};
use line::line::read_line;
use spell::answer::{print_form, print_no};

// Whether rows of these lengths are long enough for every line.
fn are_enough(list: usize, form: usize, work: usize) -> bool
    ensures { result ≡ enough_rows list form work }
{
    Limit::WORDS <= list && Limit::WORDS <= form && 16384 <= work
}

// The row that answers the line. The rows of the list and of the form are work rows too.
pub fn answer_line(
    line: &[u8],
    list: &mut [u32],
    form: &mut [u32],
    work: &mut [u32],
    res: &mut [u32],
) -> Answer
    ensures value { result ≡ told (line_outcome line.now (length list.old) (length form.old) (length work.old) (length res.old)) }
    ensures res_after { res.new ≡ written (line_outcome line.now (length list.old) (length form.old) (length work.old) (length res.old)) res.old }
{
    if !are_enough(list.len(), form.len(), work.len()) {
        return Err(Refusal::WorkTooShort);
    }
    let Some(parts) = read_line(line, list, form) else {
        return Err(Refusal::NotACommand);
    };
    check_parts(line, list, form, parts)?;
    let n = words_of(parts.list);
    let m = words_of(parts.form);
    calls::run(
        parts.command,
        parts.offset,
        &list[..n],
        &form[..m],
        work,
        res,
    )
}

// The bytes that answer the line, at the front of the buffer. All other rows are work rows.
pub fn reply(
    line: &[u8],
    list: &mut [u32],
    form: &mut [u32],
    work: &mut [u32],
    res: &mut [u32],
    bytes: &mut [u8],
) -> Answer
    ensures value { result ≡ told (reply_outcome line.now (length list.old) (length form.old) (length work.old) (length res.old) (length bytes.old)) }
    ensures bytes_after { bytes.new ≡ written (reply_outcome line.now (length list.old) (length form.old) (length work.old) (length res.old) (length bytes.old)) bytes.old }
{
    match answer_line(line, list, form, work, res) {
        Ok(n) => print_form(&res[..n], bytes),
        Err(refusal) => print_no(refusal.number(), refusal.position(), bytes),
    }
}
