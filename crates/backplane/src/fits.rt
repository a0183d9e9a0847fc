// Which configurations there are, and what they are fitted with.
ghost use Rattle.std.specs.Prelude.{◌≡◌};
ghost use Rattle.enclosure.specs.Conditions.{condition_number};
ghost use Rattle.backplane.specs.Configured.{asked, at_most_each, kept as keeping};
ghost use Rattle.backplane.specs.Meaning.{Bounded, condition_of, fits as fitting, has as having, numbers, senses as sensing};

use crate::configuration::{Configuration, Fittings};
use crate::places::{Input, Output};
use enclosure::counts::PartCounts;

// Nothing at all stands in place of a refusal: making and keeping a configuration cannot fail, and what has no parts answers each of them as not fitted.
impl Configuration {
    // Nothing at all.
    pub const NONE: Configuration = Configuration {
        counts: PartCounts {
            fans: 0,
            supplies: 0,
            slots: 0,
            sensors: 0,
            thermostats: 0,
        },
        lock: false,
        alarm: false,
        ids: [0; 14],
    };

    // This configuration, if its counts are in range and there is room for it; else nothing at all.
    pub fn kept(self, room: bool) -> Configuration
        ensures is { result ≡ keeping self room }
        ensures small { Bounded result }
    {
        if room && self.counts.in_range() {
            self
        } else {
            Configuration::NONE
        }
    }

    // Whether there is such an output.
    pub fn has(self, at: Output) -> bool
        ensures { result ≡ having self at }
    {
        let counts = self.counts;
        match at {
            Output::Lamp(k) | Output::Connection(k) => k < counts.slots as usize,
            Output::Speed(k) => k < counts.fans as usize,
            Output::Supply(k) => k < counts.supplies as usize,
            Output::Alarm => self.alarm,
            Output::Lock => self.lock,
        }
    }

    // Whether there is such an output, and it takes the number.
    pub fn fits(self, at: Output, number: u8) -> bool
        ensures { result ≡ fitting self at number }
    {
        self.has(at) && number < at.numbers()
    }

    // Whether there is such an input.
    pub fn senses(self, at: Input) -> bool
        ensures { result ≡ sensing self at }
    {
        let counts = self.counts;
        match at {
            Input::Presence(k) => k < counts.slots as usize,
            Input::Fan(k) => k < counts.fans as usize,
            Input::Supply(k) => k < counts.supplies as usize,
            Input::Temperature(k) => k < counts.sensors as usize,
            Input::OverTemperature(k) => k < counts.sensors as usize + counts.thermostats as usize,
        }
    }
}

// The configuration with these fittings. Where a count is out of range, the IDs are not one for each slot or an ID is above 15, there is nothing at all.
impl From<Fittings<'_>> for Configuration {
    ghost from_gives = { λ fittings c. c ≡ asked fittings };

    fn from(fittings: Fittings<'_>) -> Configuration {
        let Fittings {
            counts,
            lock,
            alarm,
            ids,
        } = fittings;
        let n = ids.len();
        if counts.in_range() && (n == counts.slots as usize && all_at_most(ids, 15)) {
            let mut table = [0; 14];
            table[..n].copy_from_slice(ids);
            Configuration {
                counts,
                lock,
                alarm,
                ids: table,
            }
        } else {
            Configuration::NONE
        }
    }
}

impl Output {
    // How many numbers the output takes.
    pub fn numbers(self) -> u8
        ensures { result ≡ numbers self }
    {
        match self {
            Output::Lamp(_) => 8,
            Output::Speed(_) => 5,
            Output::Connection(_) | Output::Supply(_) | Output::Alarm | Output::Lock => 2,
        }
    }
}

// Whether each byte is at most `most`.
pub fn all_at_most(bytes: &[u8], most: u8) -> bool
    ensures { result ≡ at_most_each most bytes.now }
{
    bytes.iter().all(|byte| *byte <= most)
}

// The number of the condition with a number: past the last it is that of the last.
// No `Condition` is made in between, since a frame has a number here and an input answers one.
pub fn condition_number(number: u8) -> u8
    ensures { result ≡ condition_number (condition_of number) }
{
    number.min(4)
}
