// The words of a line.
ghost use Rattle.std.specs.Prelude.{◌≡◌, ◌<◌, [], ◌∷◌, map, length, drop, IfOk, MatchOption};
ghost use Rattle.std.specs.Iterator.{at_most, item_count, YieldsFirstBy};
ghost use Rattle.scripts.specs.Lines.{blank, other_than, front, past, code_of, SplitAt, NextLine, NextWord, words_in, words_of};

use std::alloc::{AllocError, Global};

// Whether the byte is a space, a tab or a carriage return. A form feed is no blank, so `is_ascii_whitespace` would not serve.
fn is_blank(b: u8) -> bool
    ensures { result ≡ blank b }
{
    matches!(b, b' ' | b'\t' | b'\r')
}

// What stands before the first such byte and what stands after it.
pub(crate) fn split_once(text: &[u8], byte: u8) -> Option<(&[u8], &[u8])>
    ensures { SplitAt byte text.now result }
{
    let i = text.iter().position(|b| *b == byte)?;
    Some((&text[..i], &text[i + 1..]))
}

// The first line of the text, and the lines after it.
pub fn next_line(text: &[u8]) -> (&[u8], &[u8])
    ensures line { result.0.now ≡ front (other_than 10) text.now }
    ensures after { result.1.now ≡ drop 1 (past (other_than 10) text.now) }
    ensures falls { 0 < length text.now → length result.1.now < length text.now }
{
    split_once(text, b'\n').unwrap_or((text, &[]))
}

// The lines of a text, one after another; nothing follows the last line feed.
#[derive(Drop)]
pub struct Lines<'a> {
    text: &'a [u8],
}

impl<'a> Lines<'a> {
    pub fn of(text: &'a [u8]) -> Lines<'a>
        ensures { result.text.now ≡ text.now }
    {
        Lines { text }
    }
}

impl<'a> Iterator for Lines<'a> {
    type Item = &'a [u8];

    ghost next_gives = { λ lines line after. NextLine lines.text.now line after.text.now };

    ghost remaining = { λ lines. at_most (length lines.text.now) };

    fn next(&mut self) -> Option<&'a [u8]> {
        if self.text.is_empty() {
            return None;
        }
        let (line, after) = next_line(self.text);
        self.text = after;
        Some(line)
    }
}

// The line without its comment, which a '#' begins.
pub fn code(line: &[u8]) -> &[u8]
    ensures { result.now ≡ code_of line.now }
{
    split_once(line, b'#').map_or(line, |(code, _)| code)
}

// The first word of the text and what follows it, or none where the text is blank.
pub fn next_word(text: &[u8]) -> Option<(&[u8], &[u8])>
    ensures first { NextWord text.now result }
    ensures others { MatchOption result (words_in text.now ≡ []) (λ p. words_in text.now ≡ p.0.now ∷ words_in p.1.now) }
{
    let start = text.iter().position(|b| !is_blank(*b))?;
    let rest = &text[start..];
    let end = rest.iter().position(|b| is_blank(*b)).unwrap_or(rest.len());
    Some(rest.split_at(end))
}

// The words of a text, one after another.
#[derive(Drop)]
struct EachWord<'a> {
    text: &'a [u8],
}

impl<'a> Iterator for EachWord<'a> {
    type Item = &'a [u8];

    ghost next_gives = { YieldsFirstBy (λ word. word.now) (λ words. words_in words.text.now) };

    ghost remaining = { item_count (λ words. words_in words.text.now) };

    fn next(&mut self) -> Option<&'a [u8]> {
        let (word, after) = next_word(self.text)?;
        self.text = after;
        Some(word)
    }
}

// The words of the line, up to its comment.
pub fn words<'a>(heap: Global, line: &'a [u8]) -> Result<Vec<&'a [u8]>, AllocError>
    ensures { IfOk result (λ v. map (λ x. x.now) v.items ≡ words_of line.now) }
{
    EachWord { text: code(line) }.collect(heap)
}
