// Any command by its number, exported.
ghost use Rattle.std.specs.Prelude.{◌≡◌, length};
ghost use Rattle.form.specs.Answer.{told, written};
ghost use Rattle.rules.specs.Command.{number_outcome};
ghost use Rattle.sogbayile.specs.Code.{code_of};

use crate::code::refusal_code;
use crate::commands::run_command;
use form::answer::Refusal;
use rules::command::of_number;

// The answer of the command of that number; 8 where there is none.
#[unsafe(no_mangle)]
pub extern "C" fn sgb_run(
    number: u32,
    offset: i32,
    list: &[u32],
    row: &[u32],
    work: &mut [u32],
    out: &mut [u32],
) -> u64
    ensures value { result ≡ code_of (told (number_outcome number offset list.now row.now (length work.old) (length out.old))) }
    ensures out_after { out.new ≡ written (number_outcome number offset list.now row.now (length work.old) (length out.old)) out.old }
{
    let Some(command) = of_number(number) else {
        return refusal_code(Refusal::NotACommand);
    };
    run_command(command, offset, list, row, work, out)
}
