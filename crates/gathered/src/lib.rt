// A line that is gathered from chunks of input.
#![tactic(auto)]

ghost use Rattle.std.specs.Prelude.{◌≡◌, ℕ, true, cond, List, ◌++◌, None, Some, Option, vec_items, is_ok, IfOk, if◌then◌else◌};
ghost use Rattle.std.specs.Option.{option_map};
ghost use Rattle.words.specs.Words.{first_line};
ghost use Rattle.gathered.specs.Gathered.{add, begun, newline_in, nothing_in, used_of};

use std::alloc::{AllocError, Global};
use std::marker::Model;
use words::split_line;

#[cfg(test)]
mod tests;

// The bytes of a line so far, or nothing once the line is too long.
// The room for them stays when a line is too long, for the lines that follow: an `Option` of the bytes would give it away, and to take it anew is work and can fail.
#[derive(Drop)]
pub struct LineBuffer {
    bytes: Vec<u8>,
    over: bool,
}

impl Model for LineBuffer {
    ghost Value = { Option (List ℕ) };

    ghost view = { λ b. cond b.over None (Some (vec_items b.bytes)) };
}

// How many bytes of a chunk were taken, and whether the line ends with them: both mean something in every case.
#[derive(Clone, Copy)]
pub struct Taken {
    pub used: usize,
    pub ended: bool,
}

impl LineBuffer {
    // The longest line that is read, in bytes, the newline not counted.
    pub const LONGEST: usize = 1048576;

    // A line of which nothing is known yet.
    pub fn new(heap: Global) -> LineBuffer
        ensures { result ≡ begun }
    {
        LineBuffer {
            bytes: Vec::new(heap),
            over: false,
        }
    }

    // Adds bytes to the line. For want of memory the line stays as it was.
    fn add(&mut self, more: &[u8]) -> Result<(), AllocError>
        ensures { self.new ≡ (if is_ok result then add self.old more.now else self.old) }
    {
        if self.over {
            return Ok(());
        }
        if self.bytes.len().saturating_add(more.len()) <= Self::LONGEST {
            return self.bytes.extend_from_slice(more);
        }
        self.over = true;
        Ok(())
    }

    // Takes what a chunk has of the line, and the newline that ends it. For want of memory the line stays as it was.
    // However a line is cut into chunks, it comes out the same.
    pub fn take(&mut self, chunk: &[u8]) -> Result<Taken, AllocError>
        ensures taken { IfOk result (λ t. (t.used ≡ used_of chunk.now) × (t.ended ≡ newline_in chunk.now)) }
        ensures line { self.new ≡ (if is_ok result then add self.old (first_line chunk.now) else self.old) }
        ensures chunks { (h : Option (List ℕ)) (before : List ℕ) → is_ok result ≡ true → self.old ≡ add h before → self.new ≡ add h (before ++ first_line chunk.now) }
    {
        let (line, rest) = split_line(chunk);
        self.add(line)?;
        let ended = !rest.is_empty();
        Ok(Taken {
            used: line.len() + usize::from(ended),
            ended,
        })
    }

    // Whether nothing of the line has come yet.
    pub fn is_empty(&self) -> bool
        ensures { result ≡ nothing_in self.now }
    {
        self.line().is_some_and(|bytes| bytes.is_empty())
    }

    // The line, or nothing if it is too long.
    pub fn line(&self) -> Option<&[u8]>
        ensures { option_map (λ x. x.now) result ≡ self.now }
    {
        (!self.over).then_some(self.bytes.as_slice())
    }

    // The next line begins.
    pub fn begin(&mut self)
        ensures { self.new ≡ begun }
    {
        self.bytes.clear();
        self.over = false;
    }
}
