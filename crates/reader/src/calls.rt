// What a command and the words behind it ask for.
ghost use Rattle.std.specs.Prelude.{◌≡◌, drop, OnOk};
ghost use Rattle.words.specs.Left.{left};
ghost use Rattle.lines.specs.Lines.{asked, mapped_ok};
ghost use Rattle.reader.specs.Args.{number_in};
ghost use Rattle.reader.specs.Reads.{asked_in, call_in, formed, most_words};

use crate::args::{capped, end, hex, word};
use commands::command::Command;
use commands::trouble::{Trouble, Why};
use lines::line::Call;
use words::cursor::Words;
use words::number::number;

// The next word, as a number that names something, or counts.
fn named(args: &mut Words<'_>) -> Result<u64, Why>
    ensures value { result ≡ number_in (left args.old) }
    ensures rest { left args.new ≡ drop 1 (left args.old) }
{
    capped(word(args)?)
}

// What the words behind a command ask for. A match, and no table of closures: each arm shows the form of its line.
fn asked<'a>(command: Command, args: &mut Words<'a>) -> Result<Call<'a>, Why>
    ensures value { mapped_ok asked result ≡ asked_in command (left args.old) }
    ensures rest { OnOk result (left args.new ≡ drop (most_words command) (left args.old)) }
{
    match command {
        Command::Format => Ok(Call::Format {
            blocks: named(args)?,
            number: number(word(args)?)?,
        }),
        Command::Write => Ok(Call::Write {
            disk: named(args)?,
            slot: named(args)?,
            hex: hex(args.next())?,
        }),
        Command::Clear => Ok(Call::Clear {
            disk: named(args)?,
            slot: named(args)?,
        }),
        Command::Hold => Ok(Call::Hold { disk: named(args)? }),
        Command::Release => Ok(Call::Release { hold: named(args)? }),
        Command::Would => Ok(Call::Would { hold: named(args)? }),
        Command::Copy => Ok(Call::Copy { hold: named(args)? }),
        Command::New => Ok(Call::New),
        Command::Drop => Ok(Call::Drop { disk: named(args)? }),
        Command::Read => Ok(Call::Read {
            disk: named(args)?,
            slot: named(args)?,
        }),
        Command::ReadHold => Ok(Call::ReadHold {
            hold: named(args)?,
            slot: named(args)?,
        }),
        Command::Free => Ok(Call::Free),
        Command::Sync => Ok(Call::Sync),
        Command::Stream => Ok(Call::Stream {
            older: named(args)?,
            newer: named(args)?,
            file: word(args)?,
        }),
        Command::Take => Ok(Call::Take {
            disk: named(args)?,
            file: word(args)?,
        }),
        Command::Power => Err(Why::Nested),
        Command::Show => Ok(Call::Show),
        Command::Listing => Ok(Call::Listing),
    }
}

// A call: what the words ask for, and nothing behind them. A command and its words are two parameters: in a struct each contract would name two fields.
fn whole<'a>(command: Command, mut args: Words<'a>) -> Result<Call<'a>, Why>
    ensures { mapped_ok asked result ≡ call_in command (left args.entry) }
{
    let call = asked(command, &mut args)?;
    end(args)?;
    Ok(call)
}

// What is wrong with it is told with the command that it is wrong for.
pub(crate) fn call<'a>(command: Command, args: Words<'a>) -> Result<Call<'a>, Trouble>
    ensures { mapped_ok asked result ≡ formed command (call_in command (left args.entry)) }
{
    whole(command, args).map_err(|why| Trouble::Form { command, why })
}
