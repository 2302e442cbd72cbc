// Commands for the program's books.
ghost use Rattle.std.specs.Prelude.{◌≡◌};
ghost use Rattle.club.specs.Commands.{for_switch, command_for, turn_by, turn_of};

use host::{NoCommand, PairCommand, SwitchCommand};

/// A book of the program.
#[derive(Clone, Copy, PartialEq, Eq, Debug, Drop)]
pub enum Book {
    Ledger,
    Scores,
}

/// What a command does to a book.
#[derive(Clone, Copy, PartialEq, Eq, Debug, Drop)]
pub enum Turn {
    Open,
    Shut,
}

type ForSwitch = SwitchCommand<NoCommand>;

/// A command for the program's hosts: it turns the switch of the ledger, or that of the score book.
pub type Command = PairCommand<ForSwitch, ForSwitch>;

fn for_switch(turn: Turn) -> ForSwitch
    ensures { result ≡ for_switch turn }
{
    match turn {
        Turn::Open => SwitchCommand::On,
        Turn::Shut => SwitchCommand::Off,
    }
}

fn turn_by(command: ForSwitch) -> Turn
    ensures { result ≡ turn_by command }
{
    match command {
        SwitchCommand::On | SwitchCommand::Below(_) => Turn::Open,
        SwitchCommand::Off => Turn::Shut,
    }
}

/// The command that opens or shuts this book.
pub fn command_for(turn: Turn, book: Book) -> Command
    ensures { result ≡ command_for turn book }
{
    match book {
        Book::Ledger => PairCommand::First(for_switch(turn)),
        Book::Scores => PairCommand::Second(for_switch(turn)),
    }
}

/// Whether a command opens or shuts a book. One for the book below a switch, which no journal has, is told as opening.
pub fn turn_of(command: &Command) -> Turn
    ensures { result ≡ turn_of command.now }
{
    match command {
        PairCommand::First(one) | PairCommand::Second(one) => turn_by(*one),
    }
}
