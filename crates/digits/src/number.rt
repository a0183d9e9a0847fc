// Numbers as text: decimal digits, the high one first.
ghost use Rattle.std.specs.Prelude.{◌≡◌, ℕ, ◌≤◌, true, Some, decimal};
ghost use Rattle.digits.specs.Number.{all_digits, value_of, number_after, number_read, digit_after};

// The number `n` with a further digit, if it stays at most `most`.
fn add_digit(n: u32, c: u8, most: u32) -> Option<u32>
    ensures { result ≡ digit_after most n c }
{
    let digit = char::from(c).to_digit(10)?;
    n.checked_mul(10)?
        .checked_add(digit)
        .filter(|more| *more <= most)
}

// The number that digits write, if it is at most `most`; none write 0.
fn read_digits(word: &[u8], most: u32) -> Option<u32>
    ensures { result ≡ number_after most 0 word.now }
{
    let mut n = 0;
    for c in word {
        n = add_digit(n, *c, most)?;
    }
    Some(n)
}

// The number that `word` writes in decimal, if it is one and at most `most`. Zeros may stand in front.
pub fn read_number(word: &[u8], most: u32) -> Option<u32>
    ensures value { result ≡ number_read most word.now }
    ensures back { (n : ℕ) → n ≤ most → word.now ≡ decimal n → result ≡ Some n }
    ensures only { (n : ℕ) → result ≡ Some n → (all_digits word.now ≡ true) × (value_of word.now ≡ n) × (n ≤ most) }
{
    if word.is_empty() {
        return None;
    }
    read_digits(word, most)
}
