// A line's command and its words: a call, or a stop and what it cuts short.
ghost use Rattle.std.specs.Prelude.{◌≡◌};
ghost use Rattle.words.specs.Left.{left};
ghost use Rattle.commands.specs.Commands.{command_of};
ghost use Rattle.commands.specs.declared.command.Command.TheVariants.{Power};
ghost use Rattle.commands.specs.declared.trouble.Trouble.TheVariants.{Form};
ghost use Rattle.lines.specs.Lines.{asked, mapped_ok, said};
ghost use Rattle.reader.specs.Reads.{call_of, commanded, power_in, said_by};

use crate::args::{bits, capped};
use crate::calls::call;
use commands::command::Command;
use commands::trouble::{Trouble, Why};
use lines::line::{Call, Line};
use words::cursor::Words;

// What is wrong with the words of a stop.
fn in_power(why: Why) -> Trouble
    ensures { result ≡ Form Power why }
{
    Trouble::Form {
        command: Command::Power,
        why,
    }
}

// The call that a name and the words behind it ask for.
fn named_call<'a>(name: &str, args: Words<'a>) -> Result<Call<'a>, Trouble>
    ensures { mapped_ok asked result ≡ commanded (command_of name.now) (left args.entry) }
{
    call(name.parse()?, args)
}

// The call that a stop cuts short, its command first.
fn cut<'a>(mut args: Words<'a>) -> Result<Call<'a>, Trouble>
    ensures { mapped_ok asked result ≡ call_of (left args.entry) }
{
    let Some(name) = args.next() else {
        return Err(in_power(Why::TooFew));
    };
    named_call(name, args)
}

// A stop; where something is behind its bits, after how many of its requests it cuts a call short, and that call.
fn power<'a>(mut args: Words<'a>) -> Result<Line<'a>, Trouble>
    ensures { mapped_ok said result ≡ power_in (left args.entry) }
{
    let bits = bits(args.next()).map_err(in_power)?;
    let Some(count) = args.next() else {
        return Ok(Line::Power { bits });
    };
    let after = capped(count).map_err(in_power)?;
    let call = cut(args)?;
    Ok(Line::Cut { bits, after, call })
}

// The line that a name and the words behind it make.
pub(crate) fn named_line<'a>(name: &str, args: Words<'a>) -> Result<Line<'a>, Trouble>
    ensures { mapped_ok said result ≡ said_by (command_of name.now) (left args.entry) }
{
    match name.parse()? {
        Command::Power => power(args),
        command => Ok(Line::Plain(call(command, args)?)),
    }
}
