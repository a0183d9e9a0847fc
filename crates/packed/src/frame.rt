// The frame of a packed backplane.
ghost use Rattle.std.specs.Prelude.{◌≡◌, ℕ, ◌≤◌, true, length};
ghost use Rattle.backplane.specs.Meaning.{Bounded, «input_number», senses};
ghost use Rattle.packed.specs.Frame.{conditions_at, inputs_in, well_formed as is_frame};

use backplane::configuration::Configuration;
use backplane::fits::condition_number;
use backplane::places::Input;
use bits::Cell;

// Whether the `count` halves from `at` on are conditions.
fn are_conditions(frame: &[u8], at: usize, count: u8) -> bool
    requires { at ≤ 20 }
    ensures { result ≡ conditions_at frame.now at count }
{
    (0..count).all(|k| Cell::Half(at + k as usize).get(frame) <= 4)
}

// Whether a frame reads as something.
pub fn well_formed(c: Configuration, frame: &[u8]) -> bool
    ensures { result ≡ is_frame c frame.now }
{
    frame.len() == 33
        && (are_conditions(frame, 4, c.counts.fans) && are_conditions(frame, 20, c.counts.supplies))
}

// The number at an input that is fitted.
pub(crate) fn sensed(c: Configuration, frame: &[u8], at: Input) -> u8
    requires whole { length frame.now ≡ 33 }
    requires bounded { Bounded c }
    requires fitted { senses c at ≡ true }
    ensures { result ≡ input_number (inputs_in c frame.now) at }
{
    match at {
        Input::Presence(k) => Cell::Bit(k).get(frame),
        Input::Fan(k) => condition_number(Cell::Half(4 + k).get(frame)),
        Input::Supply(k) => condition_number(Cell::Half(20 + k).get(frame)),
        Input::Temperature(k) => frame[14 + k],
        Input::OverTemperature(k) => Cell::Bit(232 + k).get(frame),
    }
}
