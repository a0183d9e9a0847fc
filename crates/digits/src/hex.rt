// Bytes as text: two hex digits for each, the high one first.
ghost use Rattle.std.specs.Prelude.{◌≡◌, ℕ, ◌<◌, ◌⊎◌, List, map, length, IfSome, IfOk, Some, All, MatchResult};
ghost use Rattle.std.specs.Char.{to_ascii_lowercase};
ghost use Rattle.std.specs.List.{concat};
ghost use Rattle.digits.specs.declared.hex.HexFault.TheVariants.{Memory};
ghost use Rattle.digits.specs.Hex.{digit_of, byte_of, hex_read, bytes_read, Failed, spelled, spelled_upper};
ghost use Rattle.printed.specs.Shown.{spaced};
ghost use Rattle.words.specs.Words.{unblanked};

use std::alloc::{AllocFailed, Global};

// Why no bytes were read.
#[derive(Clone, Copy, Debug, PartialEq)]
pub enum HexFault {
    Memory,
    NotHex,
}

impl<T: Drop> From<AllocFailed<T>> for HexFault {
    ghost from_gives = { λ _ y. y ≡ Memory };

    fn from(_e: AllocFailed<T>) -> HexFault {
        HexFault::Memory
    }
}

// The value of a hex digit of either case.
pub fn hex_digit(c: u8) -> Option<u8>
    ensures value { result ≡ digit_of c }
    ensures small { IfSome result (λ d. d < 16) }
{
    char::from(c).to_digit(16).map(|d| d as u8)
}

// The byte of a high and a low digit.
fn hex_byte(high: u8, low: u8) -> Option<u8>
    ensures { result ≡ byte_of high low }
{
    let high = hex_digit(high)?;
    let low = hex_digit(low)?;
    Some(high * 16 + low)
}

// The bytes of digits two by two.
fn read_pairs(heap: Global, pairs: &[[u8; 2]]) -> Result<Vec<u8>, HexFault>
    ensures { MatchResult result (λ v. hex_read (concat pairs.now) ≡ Some v.items) (λ f. Failed f (hex_read (concat pairs.now))) }
{
    let mut bytes = Vec::new(heap);
    for [high, low] in pairs {
        let byte = hex_byte(*high, *low).ok_or(HexFault::NotHex)?;
        bytes.push(byte)?;
    }
    Ok(bytes)
}

// The bytes that `text` spells, two hex digits a byte. Only hex text reads, as the bytes that it was written of.
pub fn read_hex(heap: Global, text: &[u8]) -> Result<Vec<u8>, HexFault>
    ensures reads { MatchResult result (λ v. hex_read text.now ≡ Some v.items) (λ f. Failed f (hex_read text.now)) }
    ensures back { (bs : List ℕ) → All (λ b. b < 256) bs → (text.now ≡ spelled bs) ⊎ (text.now ≡ spelled_upper bs) → MatchResult result (λ v. v.items ≡ bs) (λ f. f ≡ Memory) }
    ensures unspaced { (bs : List ℕ) → All (λ b. b < 256) bs → 0 < length bs → text.now ≡ unblanked (spaced bs) → MatchResult result (λ v. v.items ≡ bs) (λ f. f ≡ Memory) }
    ensures only { IfOk result (λ v. map to_ascii_lowercase text.now ≡ spelled v.items) }
{
    let (pairs, rest) = text.as_chunks::<2>();
    if !rest.is_empty() {
        return Err(HexFault::NotHex);
    }
    read_pairs(heap, pairs)
}

// The bytes that a word stands for: `-` is none, and any other word is hex.
pub fn read_bytes(heap: Global, word: &[u8]) -> Result<Vec<u8>, HexFault>
    ensures { MatchResult result (λ v. bytes_read word.now ≡ Some v.items) (λ f. Failed f (bytes_read word.now)) }
{
    match word {
        [] => Err(HexFault::NotHex),
        [b'-'] => Ok(Vec::new(heap)),
        _ => read_hex(heap, word),
    }
}
