// The commands, by number, and what each takes: the code's side of the table of commands.
ghost use Rattle.std.specs.Prelude.{◌≡◌};
ghost use Rattle.rules.specs.Command.{numbered, args_of, kind_of};

use form::answer::Kind;

#[derive(Clone, Copy)]
pub enum Command {
    Shift,
    Free,
    Bind,
    Fill,
    Prune,
    Point,
    Member,
    Named,
}

// What stands before the form: an offset, or a list of names, of pairs or of places.
#[derive(Clone, Copy)]
pub enum Args {
    Nothing,
    Offset,
    Names,
    Pairs,
    Places,
}

// The command of a number.
pub fn of_number(number: u32) -> Option<Command>
    ensures { result ≡ numbered number }
{
    let all = [
        Command::Shift,
        Command::Free,
        Command::Bind,
        Command::Fill,
        Command::Prune,
        Command::Point,
        Command::Member,
        Command::Named,
    ];
    let at = number as usize;
    if at == 0 {
        return None;
    }
    if all.len() < at {
        return None;
    }
    Some(all[at - 1])
}

// What stands before a command's form.
pub fn args_of(command: Command) -> Args
    ensures { result ≡ args_of command }
{
    match command {
        Command::Shift => Args::Offset,
        Command::Free => Args::Pairs,
        Command::Bind => Args::Names,
        Command::Fill => Args::Places,
        Command::Prune => Args::Nothing,
        Command::Point => Args::Nothing,
        Command::Member => Args::Nothing,
        Command::Named => Args::Nothing,
    }
}

// Which kind of form a command takes.
pub fn kind_of(command: Command) -> Kind
    ensures { result ≡ kind_of command }
{
    match command {
        Command::Shift => Kind::Either,
        Command::Free => Kind::Either,
        Command::Bind => Kind::Either,
        Command::Fill => Kind::Predicate,
        Command::Prune => Kind::Predicate,
        Command::Point => Kind::Predicate,
        Command::Member => Kind::Predicate,
        Command::Named => Kind::Named,
    }
}
