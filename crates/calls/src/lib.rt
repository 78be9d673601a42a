// The calls of the commands on rows: of a command, and of its number.
#![tactic(auto)]

ghost use Rattle.std.specs.Prelude.{◌≡◌, length};
ghost use Rattle.form.specs.Answer.{told, written};
ghost use Rattle.rules.specs.Command.{outcome_of, number_outcome};

use form::answer::{Answer, Refusal};
use rules::command::{Command, of_number};

// The command's answer. A command that takes no offset or no list does not look at it.
pub fn run(
    command: Command,
    offset: i32,
    list: &[u32],
    row: &[u32],
    work: &mut [u32],
    out: &mut [u32],
) -> Answer
    ensures value { result ≡ told (outcome_of command offset list.now row.now (length work.old) (length out.old)) }
    ensures out_after { out.new ≡ written (outcome_of command offset list.now row.now (length work.old) (length out.old)) out.old }
{
    match command {
        Command::Shift => shift::shift::shift_bound_identifiers(row, offset, out),
        Command::Free => listed::free::substitute_free_idents(list, row, work, out),
        Command::Bind => subst::bind::bind_idents(list, row, out),
        Command::Fill => listed::fill::instantiate(list, row, work, out),
        Command::Prune => prune::prune::remove_unused_decls(row, out),
        Command::Point => one_point::one_point_inference::one_point_inference(row, work, out),
        Command::Member => member::rewrite_in_compset::rewrite_in_compset(row, work, out),
        Command::Named => named::named::to_indices(row, out),
    }
}

// The answer of the command of that number.
pub fn run_number(
    number: u32,
    offset: i32,
    list: &[u32],
    row: &[u32],
    work: &mut [u32],
    out: &mut [u32],
) -> Answer
    ensures value { result ≡ told (number_outcome number offset list.now row.now (length work.old) (length out.old)) }
    ensures out_after { out.new ≡ written (number_outcome number offset list.now row.now (length work.old) (length out.old)) out.old }
{
    let command = of_number(number).ok_or(Refusal::NotACommand)?;
    run(command, offset, list, row, work, out)
}
