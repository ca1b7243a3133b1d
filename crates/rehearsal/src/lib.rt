// What `rehearse` does with a line: the same lines as on a real device, on a device in memory.
#![tactic(auto)]

ghost use Rattle.std.specs.Prelude.{◌≡◌, Bool, None, OnErr, IsUtf8, Decides};
ghost use Rattle.std.specs.Option.{ok_or, option_or};
ghost use Rattle.lines.specs.Lines.{asked, said};
ghost use Rattle.reader.specs.Reads.{reading};
ghost use Rattle.rehearsal.specs.Playing.{after_call, after_line, after_reading, answer_to_call, answer_to_line, answer_to_reading, format_answer, formatted, free_answer, later, no_volume};

use answers::{About, Answer, Failure};
use lines::line::{Call, Line};
use reader::read;
use rules::limits::{FIRST_BLOCK, blocks_of};
use rules::refusal::Refusal;

// A device that was formatted: how many blocks it has, how many of these the volume on it, and the volume's number.
#[derive(Clone, Copy, PartialEq, Eq, Debug)]
pub struct Formatted {
    device: u32,
    blocks: u32,
    number: u64,
}

// A rehearsal: without a device, until the first one was formatted.
#[derive(Clone, Copy, PartialEq, Eq, Debug)]
pub struct Rehearsal {
    device: Option<Formatted>,
}

impl Rehearsal {
    pub fn new() -> Rehearsal
        ensures { result.device ≡ None }
    {
        Rehearsal { device: None }
    }

    // The volume on the device. Until there is one, nothing but formatting is done.
    fn volume(&self) -> Result<Formatted, Failure>
        ensures { result ≡ ok_or self.now.device no_volume }
    {
        self.device.ok_or(Failure::Refused {
            refusal: Refusal::NoVolume,
            about: None,
        })
    }

    // The device formatted, if it can be: the first time it is made, and later it has to have the blocks.
    fn formatted(&self, n: u64, number: u64) -> Option<Formatted>
        ensures { result ≡ formatted self.now.device n number }
    {
        let blocks = blocks_of(n)?;
        let device = self.device.map_or(blocks, |old| old.device);
        (blocks <= device).then_some(Formatted {
            device,
            blocks,
            number,
        })
    }

    fn format(&mut self, n: u64, number: u64) -> Result<Answer<'static>, Failure>
        ensures answer { result ≡ format_answer (formatted self.old.device n number) n }
        ensures device { self.new.device ≡ option_or (formatted self.old.device n number) self.old.device }
    {
        let device = self.formatted(n, number).ok_or(Failure::Refused {
            refusal: Refusal::Missing,
            about: Some(About::Blocks(n)),
        })?;
        self.device = Some(device);
        Ok(Answer::Done)
    }

    // How many blocks are free: all that slots can show.
    fn free(&self) -> Result<Answer<'static>, Failure>
        ensures { result ≡ free_answer self.now.device }
    {
        let volume = self.volume()?;
        Ok(Answer::Value(u64::from(volume.blocks.saturating_sub(FIRST_BLOCK))))
    }

    // What is not played yet.
    fn later(&self) -> Result<Answer<'static>, Failure>
        ensures { result ≡ later self.now.device }
    {
        self.volume()?;
        Err(Failure::NotYet)
    }

    // A match on what is asked, since a call has fields of its own; a table of closures would have to take them apart again.
    fn call(&mut self, call: Call<'_>) -> Result<Answer<'static>, Failure>
        ensures answer { result ≡ answer_to_call self.old.device (asked call.entry) }
        ensures device { self.new.device ≡ after_call self.old.device (asked call.entry) }
    {
        match call {
            Call::Format { blocks, number } => self.format(blocks, number),
            Call::Free => self.free(),
            _ => self.later(),
        }
    }

    fn play(&mut self, line: Line<'_>) -> Result<Answer<'static>, Failure>
        ensures answer { result ≡ answer_to_line self.old.device (said line.entry) }
        ensures device { self.new.device ≡ after_line self.old.device (said line.entry) }
    {
        match line {
            Line::Plain(call) => self.call(call),
            _ => self.later(),
        }
    }

    // Plays a line, which comes without its end, and answers it, unless it is to be skipped. Where it fails, nothing changes.
    pub fn answer(&mut self, line: &[u8]) -> Result<Option<Answer<'static>>, Failure>
        ensures answer { (t : Bool) → Decides t (IsUtf8 line.now) → result ≡ answer_to_reading self.old.device (reading t line.now) }
        ensures device { (t : Bool) → Decides t (IsUtf8 line.now) → self.new.device ≡ after_reading self.old.device (reading t line.now) }
        ensures same { OnErr result (self.new.device ≡ self.old.device) }
    {
        let Some(line) = read(line)? else {
            return Ok(None);
        };
        Ok(Some(self.play(line)?))
    }
}
