// The lines of an input and the words of a line, taken from the front one by one.
ghost use Rattle.std.specs.Prelude.{◌≡◌, [], ◌∷◌, MatchOption};
ghost use Rattle.std.specs.Iterator.{YieldsFirstRef, item_count};
ghost use Rattle.script.specs.Words.{is_blank, lines, words, FirstWord, FirstLine, words_left, lines_left};

// Space, tab and carriage return stand between words.
fn is_blank(byte: u8) -> bool
    ensures { result ≡ is_blank byte }
{
    matches!(byte, b' ' | b'\t' | b'\r')
}

// The first word of a line and what follows it, or none where there is no word.
pub fn first_word(line: &[u8]) -> Option<(&[u8], &[u8])>
    ensures { MatchOption result (words line.now ≡ []) (λ w. FirstWord line.now w.0.now w.1.now) }
{
    let start = line.iter().position(|byte| !is_blank(*byte))?;
    let from_word = &line[start..];
    let end = from_word.iter().position(|byte| is_blank(*byte));
    Some(from_word.split_at(end.unwrap_or(from_word.len())))
}

// The first line of an input, and what follows its line feed where it has one.
pub fn first_line(input: &[u8]) -> (&[u8], Option<&[u8]>)
    ensures { MatchOption result.1 (lines input.now ≡ result.0.now ∷ []) (λ rest. FirstLine input.now result.0.now rest.now) }
{
    match input.iter().position(|byte| *byte == b'\n') {
        None => (input, None),
        Some(end) => (&input[..end], Some(&input[end + 1..])),
    }
}

// The words of a line, one after the other.
#[derive(Drop)]
pub(crate) struct Words<'a> {
    rest: &'a [u8],
}

impl<'a> Words<'a> {
    pub(crate) fn of(line: &'a [u8]) -> Words<'a>
        ensures { words_left result ≡ words line.now }
    {
        Words { rest: line }
    }
}

impl<'a> Iterator for Words<'a> {
    type Item = &'a [u8];

    ghost next_gives = { YieldsFirstRef words_left };

    ghost remaining = { item_count words_left };

    fn next(&mut self) -> Option<&'a [u8]> {
        let (word, rest) = first_word(self.rest)?;
        self.rest = rest;
        Some(word)
    }
}

// The lines of an input, one after the other.
#[derive(Drop)]
pub(crate) struct Lines<'a> {
    rest: Option<&'a [u8]>,
}

impl<'a> Lines<'a> {
    pub(crate) fn of(input: &'a [u8]) -> Lines<'a>
        ensures { lines_left result ≡ lines input.now }
    {
        Lines { rest: Some(input) }
    }
}

impl<'a> Iterator for Lines<'a> {
    type Item = &'a [u8];

    ghost next_gives = { YieldsFirstRef lines_left };

    ghost remaining = { item_count lines_left };

    fn next(&mut self) -> Option<&'a [u8]> {
        let (line, rest) = first_line(self.rest?);
        self.rest = rest;
        Some(line)
    }
}
