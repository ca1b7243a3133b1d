// The words of a line, one after the other.
ghost use Rattle.std.specs.Prelude.{◌≡◌};
ghost use Rattle.std.specs.Iterator.{YieldsFirstRef, item_count};
ghost use Rattle.words.specs.Left.{left};
ghost use Rattle.words.specs.Words.{remark, words};

use crate::byte::Kind;

// Does the first word of a line begin with `#`.
#[tactic(auto, using(crate::proofs::Cuts::remark_is))]
pub fn is_remark(line: &[u8]) -> bool
    ensures { result ≡ remark (words line.now) }
{
    matches!(line.get(Kind::Blank.front(line)), Some(b'#'))
}

// What is left of a line, word by word.
#[derive(Clone, Copy)]
pub struct Words<'a> {
    rest: &'a str,
}

impl<'a> Words<'a> {
    // The walk begins; a `From` would promise the same value in another type.
    pub fn of(line: &'a str) -> Words<'a>
        ensures { left result ≡ words line.now }
    {
        Words { rest: line }
    }
}

impl<'a> Iterator for Words<'a> {
    type Item = &'a str;

    ghost next_gives = { YieldsFirstRef left };

    ghost remaining = { item_count left };

    #[tactic(auto, using(crate::proofs::Cuts::behind_blanks, crate::proofs::Cuts::before_blank, crate::proofs::Cuts::first_cut))]
    fn next(&mut self) -> Option<&'a str> {
        let line = self.rest;
        let (_, line) = line.split_at(Kind::Blank.front(line.as_bytes()));
        let (word, rest) = line.split_at(Kind::Solid.front(line.as_bytes()));
        self.rest = rest;
        if word.is_empty() { None } else { Some(word) }
    }
}
