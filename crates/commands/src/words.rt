// The words of a text, and the numbers that they write.
ghost use Rattle.std.specs.Prelude.{◌≡◌, ◌==◌, position, is_some, IfOk, vec_items};
ghost use Rattle.std.specs.Iterator.{YieldsFirstRef, item_count};
ghost use Rattle.std.specs.Option.{option_map};
ghost use Rattle.commands.specs.Words.{words, after_spaces, number, only_number, numbers, all_numbers, numbers_after};

use std::alloc::{AllocError, Global};

// A text without the spaces that it begins with. The library's `trim_ascii_start` would take tabs for spaces.
fn after_spaces(text: &[u8]) -> &[u8]
    ensures { result.now ≡ after_spaces text.now }
{
    let mut rest = text;
    while let [b' ', after @ ..] = rest {
        rest = after;
    }
    rest
}

// Where the first space is.
fn first_space(text: &[u8]) -> Option<usize>
    ensures { result ≡ position (λ b. b == 32) text.now }
{
    text.iter().position(|b| *b == b' ')
}

// The words of a text, one after another. A type of its own, since it is passed on: a chain of `split` and `filter` has no name that a
// parameter could have.
#[derive(Clone, Copy)]
pub(crate) struct Words<'a> {
    text: &'a [u8],
}

impl<'a> Words<'a> {
    pub(crate) fn new(text: &'a [u8]) -> Words<'a>
        ensures { words result.text.now ≡ words text.now }
    {
        Words { text }
    }
}

impl<'a> Iterator for Words<'a> {
    type Item = &'a [u8];

    ghost next_gives = { YieldsFirstRef (λ s. words s.text.now) };

    ghost remaining = { item_count (λ s. words s.text.now) };

    fn next(&mut self) -> Option<&'a [u8]> {
        let text = after_spaces(self.text);
        if text.is_empty() {
            return None;
        }
        let (word, rest) = text.split_at(first_space(text).unwrap_or(text.len()));
        self.text = rest;
        Some(word)
    }
}

// The number that a word writes in decimal, if it has 32 bits. Not `parse`, which takes a sign and wants a text.
fn number(word: &[u8]) -> Option<u32>
    ensures { result ≡ number 32 word.now }
{
    if word.is_empty() {
        return None;
    }
    let mut n: u32 = 0;
    for b in word {
        if !b.is_ascii_digit() {
            return None;
        }
        n = n.checked_mul(10)?.checked_add(u32::from(*b - b'0'))?;
    }
    Some(n)
}

// The number that a word writes in decimal, if it has 16 bits.
fn short_number(word: &[u8]) -> Option<u16>
    ensures { result ≡ number 16 word.now }
{
    u16::try_from(number(word)?).ok()
}

// The number of a text that has one word, a number of 32 bits.
pub(crate) fn only_number(mut rest: Words) -> Option<u32>
    ensures { result ≡ only_number 32 (words rest.entry.text.now) }
{
    let n = number(rest.next()?)?;
    rest.next().is_none().then_some(n)
}

// The number of a text that has one word, a number of 16 bits. Not `numbers::<1>`: a closure that takes the array apart gets no proof.
pub(crate) fn only_short_number(rest: Words) -> Option<u16>
    ensures { result ≡ only_number 16 (words rest.entry.text.now) }
{
    u16::try_from(only_number(rest)?).ok()
}

// The numbers of a text that has N words, each a number of 16 bits.
pub(crate) fn numbers<const N: usize>(mut rest: Words) -> Option<[u16; N]>
    ensures { result ≡ numbers 16 N (words rest.entry.text.now) }
{
    let mut all = [0; N];
    for n in all.iter_mut() {
        *n = short_number(rest.next()?)?;
    }
    rest.next().is_none().then_some(all)
}

// Whether each word of a text is a number of 16 bits.
pub(crate) fn are_numbers(mut rest: Words) -> bool
    ensures { result ≡ is_some (all_numbers (words rest.entry.text.now)) }
{
    rest.all(|word| short_number(word).is_some())
}

// The numbers of a text whose words are all numbers of 16 bits.
fn all_numbers(alloc: Global, rest: Words) -> Result<Option<Vec<u16>>, AllocError>
    ensures { IfOk result (λ ns. option_map vec_items ns ≡ all_numbers (words rest.entry.text.now)) }
{
    let mut all = Vec::new(alloc);
    for word in rest {
        let Some(n) = short_number(word) else {
            return Ok(None);
        };
        all.push(n)?;
    }
    Ok(Some(all))
}

// The numbers after the first word of a line; none if a word after it is no number, which is a line that was not understood.
pub fn numbers_after(alloc: Global, line: &[u8]) -> Result<Vec<u16>, AllocError>
    ensures { IfOk result (λ ns. ns.items ≡ numbers_after (words line.now)) }
{
    let mut rest = Words::new(line);
    let _first = rest.next();
    Ok(all_numbers(alloc, rest)?.unwrap_or(Vec::new(alloc)))
}
