// A whole line, read into a command.
ghost use Rattle.std.specs.Prelude.{◌≡◌, false, drop};
ghost use Rattle.line.specs.Scan.{group, scan_words};
ghost use Rattle.line.specs.Line.{last_group, form_arg, next_arg, offset_args, list_args, read_line, list_row, line_of, form_row};
ghost use Rattle.spell.specs.Put.{put};
ghost use Rattle.line.specs.Internal.Places.{Grouped, FormRead};

use crate::group::read_group;
use crate::head::read_head;
use crate::number::read_offset;
use rules::command::{Args, Command, args_of};

// A group of the line: where it starts and ends, and the number of its words.
#[derive(Clone, Copy)]
pub struct Part {
    pub start: usize,
    pub end: usize,
    pub count: usize,
}

// The offset is 0 where the command has none, and the list starts and ends at 0.
#[derive(Clone, Copy)]
pub struct Parts {
    pub command: Command,
    pub offset: i32,
    pub list: Part,
    pub form: Part,
}

// Where the line has no such part, or none that is read yet.
const NONE: Part = Part {
    start: 0,
    end: 0,
    count: 0,
};

// The group at `at`, with the line's last bracket after it.
fn last_group(line: &[u8], row: &mut [u32], at: usize) -> Option<Part>
    ensures { Grouped at at 0 (last_group (drop at line.now)) row.old row.new result }
{
    let part = read_group(line, row, at, false)?;
    if line.len() <= part.end {
        return None;
    }
    if line[part.end] != b']' || line.len() != part.end + 1 {
        return None;
    }
    Some(part)
}

// The form, as the last argument, after the parts that are read already.
fn read_form(line: &[u8], form: &mut [u32], at: usize, parts: Parts) -> Option<Parts>
    ensures { FormRead (form_arg parts.command parts.offset parts.list at line.now) form.old form.new result }
{
    let mut whole = parts;
    whole.form = last_group(line, form, at)?;
    Some(whole)
}

// A space, and the form.
fn read_next(line: &[u8], form: &mut [u32], at: usize, parts: Parts) -> Option<Parts>
    ensures { FormRead (next_arg parts.command parts.offset parts.list at line.now) form.old form.new result }
{
    if line.len() <= at {
        return None;
    }
    if line[at] != b' ' {
        return None;
    }
    read_form(line, form, at + 1, parts)
}

// An offset, a space, and the form.
fn read_signed(line: &[u8], form: &mut [u32], at: usize, command: Command) -> Option<Parts>
    ensures { FormRead (offset_args command at line.now) form.old form.new result }
{
    let (offset, end) = read_offset(line, at)?;
    let parts = Parts {
        command,
        offset,
        list: NONE,
        form: NONE,
    };
    read_next(line, form, end, parts)
}

// A list, a space, and the form.
fn read_listed(
    line: &[u8],
    list: &mut [u32],
    form: &mut [u32],
    at: usize,
    command: Command,
    places: bool,
) -> Option<Parts>
    ensures form_read { FormRead (list_args command places at line.now) form.old form.new result }
    ensures list_after { list.new ≡ put list.old 0 (scan_words (group places (drop at line.now))) }
{
    let part = read_group(line, list, at, places)?;
    let parts = Parts {
        command,
        offset: 0,
        list: part,
        form: NONE,
    };
    read_next(line, form, part.end, parts)
}

// The command of a line. The words of its list and of its form are stored at the front of the two rows; words past the end of a row
// are counted only, and where the line is misspelled the words before the break are stored.
pub fn read_line(line: &[u8], list: &mut [u32], form: &mut [u32]) -> Option<Parts>
    ensures value { result ≡ line_of (read_line line.now) }
    ensures list_after { list.new ≡ put list.old 0 (list_row line.now) }
    ensures form_after { form.new ≡ put form.old 0 (form_row (read_line line.now)) }
{
    if 65535 < line.len() {
        return None;
    }
    let start = read_head(line)?;
    let command = start.command;
    let at = start.at;
    match args_of(command) {
        Args::Nothing => {
            let parts = Parts {
                command,
                offset: 0,
                list: NONE,
                form: NONE,
            };
            read_form(line, form, at, parts)
        }
        Args::Offset => read_signed(line, form, at, command),
        Args::Names | Args::Pairs => read_listed(line, list, form, at, command, false),
        Args::Places => read_listed(line, list, form, at, command, true),
    }
}
