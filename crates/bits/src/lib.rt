// Halves and bits of an image of bytes, the lowest first: one is read, or one is written and all else stays.
#![tactic(auto)]

ghost use Rattle.std.specs.Prelude.{◌≡◌, ℕ, ◌-◌, ◌<◌, ◌&&◌, length, MatchResult, is_ok, nat_lt};
ghost use Rattle.bits.specs.Image.{Put, byte_of, held, limit, shift_of};

// A place in an image: half k, two a byte, or bit k, eight a byte.
#[derive(Clone, Copy)]
pub enum Cell {
    Half(usize),
    Bit(usize),
}

// The cell stands past the end of the image, or cannot hold the number.
#[derive(Clone, Copy)]
pub struct Unheld;

impl Cell {
    // The byte of an image that holds the cell.
    fn byte(self) -> usize
        ensures { result ≡ byte_of self }
    {
        match self {
            Cell::Half(k) => k / 2,
            Cell::Bit(k) => k / 8,
        }
    }

    // How many bits of its byte stand below the cell.
    fn shift(self) -> usize
        ensures { result ≡ shift_of self }
    {
        match self {
            Cell::Half(k) => 4 * (k % 2),
            Cell::Bit(k) => k % 8,
        }
    }

    // The largest number that the cell can hold: all its bits are on.
    fn most(self) -> u8
        ensures { result ≡ limit self - 1 }
    {
        match self {
            Cell::Half(_) => 15,
            Cell::Bit(_) => 1,
        }
    }

    // What the cell holds; past the image it is 0.
    pub fn get(self, image: &[u8]) -> u8
        ensures { result ≡ held image.now self }
    {
        let byte = image.get(self.byte()).copied().unwrap_or(0);
        byte >> self.shift() & self.most()
    }

    // Makes the cell hold `v`. A cell past the image, or a number that it cannot hold, is refused, and the image stays.
    pub fn put(self, image: &mut [u8], v: u8) -> Result<(), Unheld>
        ensures fits { is_ok result ≡ (nat_lt (byte_of self) (length image.old) && nat_lt v (limit self)) }
        ensures image { MatchResult result (λ _. Put image.old image.new self v) (λ _. image.new ≡ image.old) }
    {
        let at = self.byte();
        let most = self.most();
        if at >= image.len() || v > most {
            return Err(Unheld);
        }
        let shift = self.shift();
        image[at] = image[at] & !(most << shift) | v << shift;
        Ok(())
    }
}
