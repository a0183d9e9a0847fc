// The fields of a line, read word by word.
ghost use Rattle.std.specs.Prelude.{◌≡◌, ℕ, ◌≤◌, List, IfOk, Some, MatchResult, Option, vec_items};
ghost use Rattle.digits.specs.Hex.{bytes_read, Failed};
ghost use Rattle.digits.specs.Number.{number_read};
ghost use Rattle.words.specs.Words.{left};
ghost use Rattle.fields.specs.Fields.{Told, at_end, given, is_text, keyword_read, named_bytes, parsed, run_read, word_as};
ghost use Rattle.fields.specs.declared.expected.Expected.TheVariants as expected;

use crate::expected::{Expected, Fault, Keyword, Unreadable};
use digits::hex::{HexFault, read_bytes};
use digits::number::read_number;
use reader::fault::Run;
use std::alloc::Global;
use words::Words;

// Whether a word is this text.
pub fn same(word: &[u8], text: &str) -> bool
    ensures { result ≡ is_text word.now text.now }
{
    word == text.as_bytes()
}

// Takes the next word, which is to be one that `read` reads.
pub fn word<'a, T, F: FnOnce(&'a [u8]) -> Option<T>>(
    words: &mut Words<'a>,
    expected: Expected,
    read: F,
) -> Result<T, Unreadable<'a>>
    requires { F.IsAlwaysCallable read }
    ensures read { IfOk result (λ x. (w : _) × F.post read w (Some x)) }
    ensures parsed { (f : List ℕ → Option T) → ((w : _) (x : _) → F.post read w x → x ≡ f w.now) → parsed result (left words.new) ≡ word_as expected f (left words.old) }
{
    let found = words.next();
    found.and_then(read).ok_or(Unreadable { expected, found })
}

// The same where reading takes memory.
// One function of both would need a trait that tells which error means memory, or give each reading an error that it cannot have.
pub fn bytes_word<'a, F: FnOnce(&'a [u8]) -> Result<Vec<u8>, HexFault>>(
    words: &mut Words<'a>,
    expected: Expected,
    read: F,
) -> Result<Vec<u8>, Fault<'a>>
    requires { F.IsAlwaysCallable read }
    ensures { (f : List ℕ → Option (List ℕ)) → ((w : _) (r : _) → F.post read w r → MatchResult r (λ v. f w.now ≡ Some v.items) (λ e. Failed e (f w.now))) → Told vec_items result (left words.new) (word_as expected f (left words.old)) }
{
    let found = words.next();
    match found.map(read) {
        Some(Ok(bytes)) => Ok(bytes),
        Some(Err(HexFault::Memory)) => Err(Fault::Memory),
        Some(Err(HexFault::NotHex)) | None => {
            Err(Fault::Unreadable(Unreadable { expected, found }))
        }
    }
}

// Takes the next word, which is to be the keyword.
pub fn keyword<'a>(words: &mut Words<'a>, name: Keyword) -> Result<(), Unreadable<'a>>
    ensures { parsed result (left words.new) ≡ word_as (expected.Keyword name) (keyword_read name) (left words.old) }
{
    word(
        words,
        Expected::Keyword(name),
        |word| same(word, name.text()).then_some(()),
    )
}

// Takes the next word if it is the keyword, and answers whether it is.
pub fn take_if<'a>(words: &mut Words<'a>, name: Keyword) -> bool
    ensures { (result, left words.new) ≡ given name (left words.old) }
{
    let mut ahead = *words;
    match ahead.next() {
        Some(word) if same(word, name.text()) => {
            *words = ahead;
            true
        }
        _ => false,
    }
}

// Takes the next word, which is to be a number up to `most`.
pub fn number<'a>(words: &mut Words<'a>, most: u32) -> Result<u32, Unreadable<'a>>
    ensures reads { parsed result (left words.new) ≡ word_as (expected.Number most) (number_read most) (left words.old) }
    ensures small { IfOk result (λ n. n ≤ most) }
{
    word(
        words,
        Expected::Number(most),
        |word| read_number(word, most),
    )
}

// The run that a word names.
fn run_named(word: &[u8]) -> Option<Run>
    ensures { result ≡ run_read word.now }
{
    // A longer word is no name, and is not looked through as a text.
    if word.len() > 12 {
        return read_number(word, 255).map(Run::from);
    }
    match str::from_utf8(word) {
        Ok("fans") => Some(Run::Fans),
        Ok("supplies") => Some(Run::Supplies),
        Ok("ids") => Some(Run::Ids),
        Ok("temperatures") => Some(Run::Temperatures),
        Ok("slots") => Some(Run::Slots),
        Ok("counts") => Some(Run::Counts),
        _ => read_number(word, 255).map(Run::from),
    }
}

// Takes the next word, which is to be a run, by its name or its number.
pub fn run<'a>(words: &mut Words<'a>) -> Result<Run, Unreadable<'a>>
    ensures { parsed result (left words.new) ≡ word_as expected.Run run_read (left words.old) }
{
    word(words, Expected::Run, run_named)
}

// Takes the next word, which is to be bytes in hexadecimal, or `-` for none.
// The heap stays a parameter beside the words: it shows which readings can run out of memory.
pub fn bytes<'a>(heap: Global, words: &mut Words<'a>) -> Result<Vec<u8>, Fault<'a>>
    ensures { Told vec_items result (left words.new) (word_as expected.Bytes bytes_read (left words.old)) }
{
    bytes_word(words, Expected::Bytes, |word| read_bytes(heap, word))
}

// A keyword, and the bytes that follow it.
// A function of any reading behind a keyword would say by the reading's `post` what is one equation here, and each closure for it would state that equation again.
pub fn named_bytes<'a>(
    heap: Global,
    words: &mut Words<'a>,
    name: Keyword,
) -> Result<Vec<u8>, Fault<'a>>
    ensures { Told vec_items result (left words.new) (named_bytes name (left words.old)) }
{
    keyword(words, name)?;
    bytes(heap, words)
}

// The line is to end here.
pub fn end<'a>(words: &mut Words<'a>) -> Result<(), Unreadable<'a>>
    ensures { parsed result (left words.new) ≡ at_end (left words.old) }
{
    match words.next() {
        None => Ok(()),
        found => Err(Unreadable {
            expected: Expected::End,
            found,
        }),
    }
}
