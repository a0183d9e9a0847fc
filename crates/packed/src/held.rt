// The packed backplane.
ghost use Rattle.std.specs.Prelude.{◌≡◌, ℕ, length, nat_le};
ghost use Rattle.backplane.specs.Few.{few};
ghost use Rattle.backplane.specs.Meaning.{Bounded};
ghost use Rattle.packed.specs.Frame.{reading as packed_reading};
ghost use Rattle.packed.specs.Layout.{fitted, value_of};

use crate::frame::{sensed, well_formed};
use crate::image::place;
use backplane::configuration::Configuration;
use backplane::interface::{Backplane, Unfit, Unread};
use backplane::places::{Input, Output};

#[derive(Drop)]
pub struct Packed<'a> {
    pub(crate) configuration: Configuration,
    pub(crate) frame: [u8; 33],
    pub(crate) image: &'a mut [u8],
}

impl<'a> Packed<'a> {
    // What it is fitted with.
    fn parts(&self) -> Configuration
        ensures is { result ≡ fitted self.now.configuration self.now.image.now }
        ensures small { Bounded result }
    {
        self.configuration.kept(self.image.len() >= 19)
    }
}

impl Backplane for Packed<'_> {
    ghost value = { λ s. value_of s.configuration s.frame s.image.now s.image.ghost_name };

    ghost reading = { packed_reading };

    ghost bounded = { λ s. few s.configuration (nat_le 19 (length s.image.now)) };

    fn configuration(&self) -> Configuration {
        self.parts()
    }

    fn input(&self, at: Input) -> Option<u8> {
        let c = self.parts();
        if c.senses(at) {
            Some(sensed(c, &self.frame, at))
        } else {
            None
        }
    }

    fn output(&self, at: Output) -> Option<u8> {
        if self.parts().has(at) {
            Some(place(at).get(self.image))
        } else {
            None
        }
    }

    fn sample(&mut self, frame: &[u8]) -> Result<(), Unread> {
        if !well_formed(self.parts(), frame) {
            return Err(Unread);
        }
        self.frame.copy_from_slice(frame);
        Ok(())
    }

    fn set(&mut self, at: Output, number: u8) -> Result<(), Unfit> {
        if self.parts().fits(at, number) {
            place(at).put(self.image, number).map_err(|_| Unfit)
        } else {
            Err(Unfit)
        }
    }
}
