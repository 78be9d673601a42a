// The heads of commands.
ghost use Rattle.std.specs.Prelude.{◌≡◌};
ghost use Rattle.line.specs.Line.{start_of};
ghost use Rattle.rules.specs.Command.{commands, head_of};

use rules::command::{Command, of_number};

// The command that a line begins with, and where its arguments begin.
#[derive(Clone, Copy)]
pub struct Start {
    pub command: Command,
    pub at: usize,
}

// The bytes that a command's line begins with.
fn head(command: Command) -> &'static [u8]
    ensures { result.now ≡ head_of command }
{
    match command {
        Command::Shift => b"[shift ",
        Command::Free => b"[free ",
        Command::Bind => b"[bind ",
        Command::Fill => b"[fill ",
        Command::Prune => b"[prune ",
        Command::Point => b"[point ",
        Command::Member => b"[member ",
        Command::Named => b"[named ",
    }
}

// The command that the line begins with, if any: the first of the table, in the order of their numbers, whose bytes stand there.
pub fn read_head(line: &[u8]) -> Option<Start>
    ensures { result ≡ start_of commands line.now }
{
    let mut n: u32 = 1;
    loop {
        let command = of_number(n)?;
        let word = head(command);
        if line.starts_with(word) {
            return Some(Start {
                command,
                at: word.len(),
            });
        }
        n += 1;
    }
}
