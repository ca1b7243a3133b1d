// The commands that a line can begin with.
ghost use Rattle.std.specs.Prelude.{◌≡◌, Some, Ok, IfErr};
ghost use Rattle.std.specs.Result.{result_ok};
ghost use Rattle.commands.specs.Commands.{command_of, named_in, usage_of, word_of};
ghost use Rattle.commands.specs.declared.trouble.Trouble.TheVariants.{NoCommand};

use crate::trouble::Trouble;
use std::fmt;
use std::str::FromStr;

// Each is named by one word.
#[derive(Clone, Copy, PartialEq, Eq, Debug)]
pub enum Command {
    Format,
    Write,
    Clear,
    Hold,
    Release,
    Would,
    Copy,
    New,
    Drop,
    Read,
    ReadHold,
    Free,
    Sync,
    Stream,
    Take,
    Power,
    Show,
    // The line `list`; `List` is what specs/ call a list.
    Listing,
}

const ALL: [Command; 18] = [
    Command::Format,
    Command::Write,
    Command::Clear,
    Command::Hold,
    Command::Release,
    Command::Would,
    Command::Copy,
    Command::New,
    Command::Drop,
    Command::Read,
    Command::ReadHold,
    Command::Free,
    Command::Sync,
    Command::Stream,
    Command::Take,
    Command::Power,
    Command::Show,
    Command::Listing,
];

// The first of these that the word names.
fn among(commands: &[Command], name: &str) -> Option<Command>
    ensures { result ≡ named_in commands.now name.now }
{
    commands
        .iter()
        .copied()
        .find(|command| command.word() == name)
}

impl FromStr for Command {
    type Err = Trouble;

    ghost from_str_gives = { λ name r. (result_ok r ≡ command_of name) × IfErr r (λ e. e ≡ NoCommand) };

    // The command of this name; a command's own word is its name.
    #[tactic(auto, using(crate::proofs::Names::named_again))]
    fn from_str(name: &str) -> Result<Command, Trouble>
        ensures reads { (result_ok result ≡ command_of name.now) × IfErr result (λ e. e ≡ NoCommand) }
        ensures again { (c : Command) → name.now ≡ word_of c → result ≡ Ok c }
    {
        among(&ALL, name).ok_or(Trouble::NoCommand)
    }
}

impl Command {
    // The word that names it.
    pub fn word(self) -> &'static str
        ensures { result.now ≡ word_of self }
    {
        match self {
            Command::Format => "format",
            Command::Write => "write",
            Command::Clear => "clear",
            Command::Hold => "hold",
            Command::Release => "release",
            Command::Would => "would",
            Command::Copy => "copy",
            Command::New => "new",
            Command::Drop => "drop",
            Command::Read => "read",
            Command::ReadHold => "readhold",
            Command::Free => "free",
            Command::Sync => "sync",
            Command::Stream => "stream",
            Command::Take => "take",
            Command::Power => "power",
            Command::Show => "show",
            Command::Listing => "list",
        }
    }

    // The line's form, for people.
    pub fn usage(self) -> &'static str
        ensures { result.now ≡ usage_of self }
    {
        match self {
            Command::Format => "format N V",
            Command::Write => "write D S HEX",
            Command::Clear => "clear D S",
            Command::Hold => "hold D",
            Command::Release => "release H",
            Command::Would => "would H",
            Command::Copy => "copy H",
            Command::New => "new",
            Command::Drop => "drop D",
            Command::Read => "read D S",
            Command::ReadHold => "readhold H S",
            Command::Free => "free",
            Command::Sync => "sync",
            Command::Stream => "stream H H FILE",
            Command::Take => "take D FILE",
            Command::Power => "power BITS, or power BITS K LINE",
            Command::Show => "show",
            Command::Listing => "list",
        }
    }
}

impl fmt::Display for Command {
    ghost output = { λ c. Some (word_of c) };

    fn fmt<W: fmt::Write>(&self, f: &mut fmt::Formatter<W>) -> fmt::Result {
        f.write_str(self.word())
    }
}
