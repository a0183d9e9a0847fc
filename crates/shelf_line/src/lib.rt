// What follows the word `shelf` on a line.
#![tactic(auto)]

ghost use Rattle.std.specs.Prelude.{◌≡◌, ℕ, MatchResult, Some, vec_items};
ghost use Rattle.digits.specs.Hex.{Failed};
ghost use Rattle.words.specs.Words.{left};
ghost use Rattle.fields.specs.declared.expected.Expected.TheVariants as expected;
ghost use Rattle.fields.specs.Fields.{Told, parsed, word_as};
ghost use Rattle.shelf_line.specs.ShelfLine.{counts_asked, identity_read, image_asked, kind_read, named_count, named_flag, parts_asked, parts_of, shelf_asked, shelf_of, shelf_words, truth_read};

use digits::hex::{HexFault, read_bytes};
use enclosure::counts::PartCounts;
use fields::expected::{Expected, Fault, Keyword, Unreadable};
use fields::reading;
use std::alloc::Global;
use words::Words;

// The two kinds of backplane.
#[derive(Clone, Copy)]
pub enum Kind {
    Plain,
    Packed,
}

#[derive(Drop)]
pub struct ShelfParts {
    pub counts: PartCounts,
    pub lock: bool,
    pub alarm: bool,
    pub ids: Vec<u8>,
    // A line gives 36 bytes. An array would say so, but would ask it of parts that are made without a line too.
    pub identity: Vec<u8>,
}

// The shelf that a line asks for.
#[derive(Drop)]
pub struct ShelfAsked {
    pub parts: ShelfParts,
    // The image of a packed shelf; a plain one has none.
    pub image: Option<Vec<u8>>,
}

// How many bytes an identity has.
const IDENTITY: usize = 36;

// How many bytes an image has that is not given.
const IMAGE: usize = 19;

// The kind of backplane that a word names.
fn kind_named(word: &[u8]) -> Option<Kind>
    ensures { result ≡ kind_read word.now }
{
    // A longer word is no kind, and is not looked through as a text.
    if word.len() > 6 {
        return None;
    }
    match str::from_utf8(word) {
        Ok("plain") => Some(Kind::Plain),
        Ok("packed") => Some(Kind::Packed),
        _ => None,
    }
}

// Takes the next word, which is to be a kind of backplane.
fn read_kind<'a>(words: &mut Words<'a>) -> Result<Kind, Unreadable<'a>>
    ensures { parsed result (left words.new) ≡ word_as expected.Kind kind_read (left words.old) }
{
    reading::word(words, Expected::Kind, kind_named)
}

// Which of `yes` and `no` a word is, if it is either.
fn truth_named(word: &[u8]) -> Option<bool>
    ensures { result ≡ truth_read word.now }
{
    // A longer word is neither, and is not looked through as a text.
    if word.len() > 3 {
        return None;
    }
    match str::from_utf8(word) {
        Ok("yes") => Some(true),
        Ok("no") => Some(false),
        _ => None,
    }
}

// Takes the next word, which is to be `yes` or `no`.
fn truth<'a>(words: &mut Words<'a>) -> Result<bool, Unreadable<'a>>
    ensures { parsed result (left words.new) ≡ word_as expected.YesNo truth_read (left words.old) }
{
    reading::word(words, Expected::YesNo, truth_named)
}

// A keyword, and whether it is so.
// One function for this, counts and bytes would take the reading as a closure: its contract is longer than theirs together, and a closure for it has to state what it reads.
#[tactic(auto, unfolding(crate::specs::ShelfLine::named_flag))]
fn named_flag<'a>(words: &mut Words<'a>, name: Keyword) -> Result<bool, Unreadable<'a>>
    ensures { parsed result (left words.new) ≡ named_flag name (left words.old) }
{
    reading::keyword(words, name)?;
    truth(words)
}

// A keyword, and a number up to 255.
#[tactic(auto, unfolding(crate::specs::ShelfLine::named_count))]
fn named_count<'a>(words: &mut Words<'a>, name: Keyword) -> Result<u8, Unreadable<'a>>
    ensures { parsed result (left words.new) ≡ named_count name (left words.old) }
{
    reading::keyword(words, name)?;
    let n = reading::number(words, 255)?;
    Ok(n as u8)
}

// The counts of the parts.
#[tactic(auto, unfolding(crate::specs::ShelfLine::counts_asked))]
fn counts<'a>(words: &mut Words<'a>) -> Result<PartCounts, Unreadable<'a>>
    ensures { parsed result (left words.new) ≡ counts_asked (left words.old) }
{
    let fans = named_count(words, Keyword::Fans)?;
    let supplies = named_count(words, Keyword::Supplies)?;
    let slots = named_count(words, Keyword::Slots)?;
    let sensors = named_count(words, Keyword::Sensors)?;
    let thermostats = named_count(words, Keyword::Thermostats)?;
    Ok(PartCounts {
        fans,
        supplies,
        slots,
        sensors,
        thermostats,
    })
}

// The bytes of an identity.
fn read_identity(heap: Global, word: &[u8]) -> Result<Vec<u8>, HexFault>
    ensures { MatchResult result (λ v. identity_read word.now ≡ Some v.items) (λ e. Failed e (identity_read word.now)) }
{
    let bytes = read_bytes(heap, word)?;
    if bytes.len() == IDENTITY {
        Ok(bytes)
    } else {
        Err(HexFault::NotHex)
    }
}

// Takes the next word, which is to be the bytes of an identity.
// The heap stays a parameter beside the words, here and below: it shows which readings can run out of memory.
fn identity<'a>(heap: Global, words: &mut Words<'a>) -> Result<Vec<u8>, Fault<'a>>
    ensures { Told vec_items result (left words.new) (word_as expected.Identity identity_read (left words.old)) }
{
    reading::bytes_word(words, Expected::Identity, |word| read_identity(heap, word))
}

// The parts of a shelf.
#[tactic(auto, unfolding(crate::specs::ShelfLine::parts_asked))]
fn parts<'a>(heap: Global, words: &mut Words<'a>) -> Result<ShelfParts, Fault<'a>>
    ensures { Told parts_of result (left words.new) (parts_asked (left words.old)) }
{
    let counts = counts(words)?;
    let lock = named_flag(words, Keyword::Lock)?;
    let alarm = named_flag(words, Keyword::Alarm)?;
    let ids = reading::named_bytes(heap, words, Keyword::Ids)?;
    reading::keyword(words, Keyword::Identity)?;
    let identity = identity(heap, words)?;
    Ok(ShelfParts {
        counts,
        lock,
        alarm,
        ids,
        identity,
    })
}

// The image of a packed shelf: zeros if it is left out.
#[tactic(auto, unfolding(crate::specs::ShelfLine::image_asked))]
fn image<'a>(heap: Global, words: &mut Words<'a>) -> Result<Vec<u8>, Fault<'a>>
    ensures { Told vec_items result (left words.new) (image_asked (left words.old)) }
{
    if reading::take_if(words, Keyword::Image) {
        reading::bytes(heap, words)
    } else {
        let zeros = vec![in heap; 0; IMAGE]?;
        Ok(zeros)
    }
}

// The shelf, without the end of the line.
#[tactic(auto, unfolding(crate::specs::ShelfLine::shelf_asked))]
fn shelf<'a>(heap: Global, words: &mut Words<'a>) -> Result<ShelfAsked, Fault<'a>>
    ensures { Told shelf_of result (left words.new) (shelf_asked (left words.old)) }
{
    let kind = read_kind(words)?;
    let parts = parts(heap, words)?;
    match kind {
        Kind::Plain => Ok(ShelfAsked { parts, image: None }),
        Kind::Packed => {
            let image = image(heap, words)?;
            Ok(ShelfAsked {
                parts,
                image: Some(image),
            })
        }
    }
}

// The shelf that the words after `shelf` ask for, all of them.
// The end of the line is read here and not by a function of any reading, whose contract would say by the reading's `post` what is one equation here.
#[tactic(auto, unfolding(crate::specs::ShelfLine::shelf_words))]
pub fn shelf_words<'a>(heap: Global, words: &mut Words<'a>) -> Result<ShelfAsked, Fault<'a>>
    ensures { Told shelf_of result (left words.new) (shelf_words (left words.old)) }
{
    let shelf = shelf(heap, words)?;
    reading::end(words)?;
    Ok(shelf)
}
