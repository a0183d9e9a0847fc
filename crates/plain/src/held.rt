// The plain backplane.
ghost use Rattle.std.specs.Prelude.{◌≡◌, ℕ, ◌<◌, Bool, true, if◌then◌else◌};
ghost use Rattle.backplane.specs.Configured.{«kept»};
ghost use Rattle.backplane.specs.Few.{few};
ghost use Rattle.backplane.specs.Meaning.{Bounded, index, numbers, «same_output»};
ghost use Rattle.backplane.specs.declared.places.Output.{Output as Out};
ghost use Rattle.plain.specs.Frame.{reading as plain_reading};
ghost use Rattle.plain.specs.Held.{Blank, «outputs_of», table_size, value_of};

use crate::frame::{padded, sensed, well_formed};
use crate::tables::{SlotOutputs, Tables};
use backplane::configuration::Configuration;
use backplane::interface::{Backplane, Unfit, Unread};
use backplane::places::{Input, Output};

impl Tables {
    // Tables in which all is 0.
    pub(crate) fn blank() -> Tables
        ensures { Blank result }
    {
        Tables {
            frame: [0; 83],
            slots: [SlotOutputs {
                lamp: 0,
                connected: false,
            }; 14],
            speeds: [0; 16],
            supplies: [false; 8],
            alarm: false,
            lock: false,
        }
    }

    // The number at an output that the tables hold.
    fn get(&self, at: Output) -> u8
        requires { index at < table_size at }
        ensures { result ≡ outputs_of self.now at }
    {
        match at {
            Output::Lamp(k) => self.slots[k].lamp,
            Output::Connection(k) => self.slots[k].connected as u8,
            Output::Speed(k) => self.speeds[k],
            Output::Supply(k) => self.supplies[k] as u8,
            Output::Alarm => self.alarm as u8,
            Output::Lock => self.lock as u8,
        }
    }

    // Keeps a frame; the outputs stay.
    fn keep(&mut self, frame: [u8; 83])
        ensures frame { self.new.frame ≡ frame }
        ensures outputs { (o : Out) → outputs_of self.new o ≡ outputs_of self.old o }
    {
        self.frame = frame;
    }

    // Makes the number at an output that the tables hold.
    fn put(&mut self, at: Output, number: u8)
        requires there { index at < table_size at }
        requires fits { number < numbers at }
        ensures outputs { (o : Out) → outputs_of self.new o ≡ (if same_output o at then number else outputs_of self.old o) }
        ensures frame { self.new.frame ≡ self.old.frame }
    {
        match at {
            Output::Lamp(k) => self.slots[k].lamp = number,
            Output::Connection(k) => self.slots[k].connected = number == 1,
            Output::Speed(k) => self.speeds[k] = number,
            Output::Supply(k) => self.supplies[k] = number == 1,
            Output::Alarm => self.alarm = number == 1,
            Output::Lock => self.lock = number == 1,
        }
    }
}

#[derive(Drop)]
pub struct Plain {
    pub(crate) configuration: Configuration,
    pub(crate) tables: Tables,
}

impl Plain {
    // What it is fitted with.
    fn parts(&self) -> Configuration
        ensures is { result ≡ kept self.now.configuration true }
        ensures small { Bounded result }
    {
        self.configuration.kept(true)
    }
}

// The packed backplane has the same steps over other things, `well_formed` and `sensed` among them; a trait for those would have to state each contract of Backplane once more, for the step beneath it.
impl Backplane for Plain {
    ghost value = { λ s. value_of s.configuration s.tables };

    ghost reading = { plain_reading };

    ghost bounded = { λ s. few s.configuration true };

    fn configuration(&self) -> Configuration {
        self.parts()
    }

    fn input(&self, at: Input) -> Option<u8> {
        let c = self.parts();
        if c.senses(at) {
            Some(sensed(c, &self.tables.frame, at))
        } else {
            None
        }
    }

    fn output(&self, at: Output) -> Option<u8> {
        if self.parts().has(at) {
            Some(self.tables.get(at))
        } else {
            None
        }
    }

    fn sample(&mut self, frame: &[u8]) -> Result<(), Unread> {
        if !well_formed(self.parts(), frame) {
            return Err(Unread);
        }
        self.tables.keep(padded(frame));
        Ok(())
    }

    fn set(&mut self, at: Output, number: u8) -> Result<(), Unfit> {
        if self.parts().fits(at, number) {
            self.tables.put(at, number);
            Ok(())
        } else {
            Err(Unfit)
        }
    }
}
