// The frame of a plain backplane.
ghost use Rattle.std.specs.Prelude.{◌≡◌, ℕ, ◌≤◌, true, ◌++◌, length, drop, replicate};
ghost use Rattle.backplane.specs.Meaning.{Bounded, «input_number», senses};
ghost use Rattle.plain.specs.Frame.{inputs_in, places_of, well_formed as is_frame};

use backplane::configuration::Configuration;
use backplane::fits::{all_at_most, condition_number};
use backplane::places::Input;

// Where the parts of a frame begin, and where it ends: presence comes first, from 0 on.
#[derive(Clone, Copy)]
struct Places {
    fans: usize,
    supplies: usize,
    temperatures: usize,
    flags: usize,
    end: usize,
}

impl From<Configuration> for Places {
    ghost from_gives = { λ c places. places ≡ places_of c };

    fn from(c: Configuration) -> Places {
        let fans = c.counts.slots as usize;
        let supplies = fans + c.counts.fans as usize;
        let temperatures = supplies + c.counts.supplies as usize;
        let flags = temperatures + c.counts.sensors as usize;
        let end = flags + (c.counts.sensors as usize + c.counts.thermostats as usize);
        Places {
            fans,
            supplies,
            temperatures,
            flags,
            end,
        }
    }
}

// Whether a frame reads as something.
pub fn well_formed(c: Configuration, frame: &[u8]) -> bool
    ensures { result ≡ is_frame c frame.now }
{
    let from = Places::from(c);
    frame.len() == from.end
        && (all_at_most(&frame[..from.fans], 1)
            && (all_at_most(&frame[from.fans..from.temperatures], 4)
                && all_at_most(&frame[from.flags..], 1)))
}

// The number at an input that is fitted.
pub(crate) fn sensed(c: Configuration, frame: &[u8], at: Input) -> u8
    requires whole { length frame.now ≡ 83 }
    requires bounded { Bounded c }
    requires fitted { senses c at ≡ true }
    ensures { result ≡ input_number (inputs_in c frame.now) at }
{
    let from = Places::from(c);
    match at {
        Input::Presence(k) => (frame[k] == 1) as u8,
        Input::Fan(k) => condition_number(frame[from.fans + k]),
        Input::Supply(k) => condition_number(frame[from.supplies + k]),
        Input::Temperature(k) => frame[from.temperatures + k],
        Input::OverTemperature(k) => (frame[from.flags + k] == 1) as u8,
    }
}

// A frame, and zeros after it.
pub(crate) fn padded(frame: &[u8]) -> [u8; 83]
    requires { length frame.now ≤ 83 }
    ensures { result ≡ frame.now ++ drop (length frame.now) (replicate 83 0) }
{
    let mut table = [0; 83];
    table[..frame.len()].copy_from_slice(frame);
    table
}
