// Plays lines on a device in memory, and answers each.
#![tactic(auto)]

use input::buffer::LineBuffer;
use rehearsal::Rehearsal;
use std::io::BufReader;
use std::process::ExitCode;
use std::{env, io};

const USAGE: &str = "usage: rehearse
Reads lines from standard input, plays them on a device in memory, and answers each.
The first line is `format N V`: a device of N blocks, and a volume of number V on it.";

// Answers each line before it waits for the next.
fn play(rt: &HostRuntime) -> io::Result<()> {
    let mut input = BufReader::new(rt.alloc(), rt.stdin())?;
    let mut buffer = LineBuffer::new(rt.alloc())?;
    let mut rehearsal = Rehearsal::new();
    // An input may never end, and each loop has to.
    for _ in 0..u64::MAX {
        let Some(line) = buffer.next(&mut input)? else {
            break;
        };
        match rehearsal.answer(line) {
            Ok(None) => {}
            Ok(Some(answer)) => println!(rt; "{answer}")?,
            Err(failure) => println!(rt; "{failure}")?,
        }
    }
    Ok(())
}

fn run(rt: &HostRuntime) -> io::Result<ExitCode> {
    let Some(word) = env::args(rt)?.nth(1) else {
        play(rt)?;
        return Ok(ExitCode::SUCCESS);
    };
    match word.as_str() {
        "--help" => println!(rt; "{USAGE}")?,
        "--version" => println!(rt; "rehearse 0.1.0")?,
        _ => {
            eprintln!(rt; "{USAGE}")?;
            return Ok(ExitCode::FAILURE);
        }
    }
    Ok(ExitCode::SUCCESS)
}

fn main(rt: HostRuntime) -> ExitCode {
    run(&rt).unwrap_or_else(|e| {
        let _ = eprintln!(rt; "rehearse: {e}");
        ExitCode::FAILURE
    })
}
