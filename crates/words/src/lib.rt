// The words of a line, one after another. Blanks part them, and a `#` starts a comment.
#![tactic(auto)]

ghost use Rattle.std.specs.Prelude.{◌≡◌, ℕ, Bool, true, false, List, ◌++◌, All};
ghost use Rattle.std.specs.Fn.{FnReturnsAt};
ghost use Rattle.std.specs.Iterator.{item_count};
ghost use Rattle.std.specs.List.{before_first};
ghost use Rattle.std.specs.Option.{option_map};
ghost use Rattle.words.specs.Words.{blank, first_line, pieces, words, left, taken, joined_by, IsWord};

// Whether a byte parts words.
fn is_blank(c: u8) -> bool
    ensures { result ≡ blank c }
{
    matches!(c, b' ' | b'\t' | b'\r')
}

// What stands before the first byte of `text` that `stops`, and the rest, which begins with it.
fn split_before<F: Fn(&u8) -> bool>(text: &[u8], stops: F) -> (&[u8], &[u8])
    requires { F.IsAlwaysCallable stops }
    ensures front { (test : ℕ → Bool) → ((x : ℕ) (r : Bool) → FnReturnsAt F.Fn stops x r → r ≡ test x) → result.0.now ≡ before_first test text.now }
    ensures whole { text.now ≡ result.0.now ++ result.1.now }
{
    let end = text.iter().position(stops).unwrap_or(text.len());
    text.split_at(end)
}

// What stands before the first newline of `text`, and the rest, which begins with it.
pub fn split_line(text: &[u8]) -> (&[u8], &[u8])
    ensures line { result.0.now ≡ first_line text.now }
    ensures rest { text.now ≡ result.0.now ++ result.1.now }
{
    split_before(text, |c| *c == b'\n')
}

// The first word of `text`, which has no comment, and what follows it.
fn cut(text: &[u8]) -> (Option<&[u8]>, &[u8])
    ensures { (option_map (λ x. x.now) result.0, pieces false result.1.now) ≡ taken (pieces false text.now) }
{
    let (_, rest) = split_before(text, |c| !is_blank(*c));
    let (word, rest) = split_before(rest, |c| is_blank(*c));
    ((!word.is_empty()).then_some(word), rest)
}

// The words of a line that are still to come.
// It is copied to look ahead in a line, and a type with a lifetime that is copied has no model: contracts say by `left` what is to come.
#[derive(Clone, Copy)]
pub struct Words<'a> {
    rest: &'a [u8],
}

impl<'a> Words<'a> {
    // The words of `line`. Words that were joined by single blanks are found again.
    pub fn of(line: &'a [u8]) -> Words<'a>
        ensures all { left result ≡ words line.now }
        ensures back { (b : ℕ) (ws : List (List ℕ)) → blank b ≡ true → All IsWord ws → line.now ≡ joined_by b ws → left result ≡ ws }
    {
        let (rest, _) = split_before(line, |c| *c == b'#');
        Words { rest }
    }
}

impl<'a> Iterator for Words<'a> {
    type Item = &'a [u8];

    ghost next_gives = { λ s r t. (option_map (λ x. x.now) r, left t) ≡ taken (left s) };

    ghost remaining = { item_count left };

    // Takes the first word that is left, if there is one.
    fn next(&mut self) -> Option<&'a [u8]> {
        let (word, rest) = cut(self.rest);
        self.rest = rest;
        word
    }
}
