// What the status page shows of the backplane.
// Each list is an array of as many parts as there can be, and the configuration says how many of them count: firmware has no heap for a list of just those.
// Only those that count are asked of the backplane.
ghost use Rattle.std.specs.Prelude.{◌≡◌, ℕ, ◌+◌, ◌<◌, take, ◌==◌, slice_index};
ghost use Rattle.backplane.specs.declared.places.Output.TheVariants.{Supply as Switch};
ghost use Rattle.enclosure.specs.Conditions.{fan_of, supply_of};
ghost use Rattle.history.specs.Replies.{listed};
ghost use Rattle.gathering.specs.Conditions.{condition_at};

use backplane::interface::Backplane;
use backplane::places::{Input, Output};
use enclosure::codes::{FanCode, SupplyCode};
use enclosure::conditions::Condition;
use parts::kinds::PlainByte;
use std::array;

// The condition at an input, which is unknown where there is none.
fn condition(number: Option<u8>) -> Condition
    ensures { result ≡ condition_at number }
{
    number
        .and_then(|number| Condition::try_from(number).ok())
        .unwrap_or(Condition::Unknown)
}

// The code of a fan.
fn fan_code<B: Backplane>(b: &B, k: usize) -> FanCode
    ensures { k < (B.Backplane.value b.now).configuration.counts.fans → result ≡ fan_of ((B.Backplane.value b.now).inputs.fan k) }
{
    FanCode::from(condition(b.input(Input::Fan(k))))
}

// The code of a supply.
fn supply_code<B: Backplane>(b: &B, k: usize) -> SupplyCode
    ensures { k < (B.Backplane.value b.now).configuration.counts.supplies → result ≡ supply_of ((B.Backplane.value b.now).inputs.supply k) ((B.Backplane.value b.now).outputs (Switch k) == 1) }
{
    let on = b.output(Output::Supply(k)) == Some(1);
    SupplyCode::of(condition(b.input(Input::Supply(k))), on)
}

// The byte of a sensor.
fn temperature<B: Backplane>(b: &B, k: usize) -> PlainByte
    ensures { k < (B.Backplane.value b.now).configuration.counts.sensors → result ≡ record { 0 = (B.Backplane.value b.now).inputs.temperature k } }
{
    PlainByte(b.input(Input::Temperature(k)).unwrap_or(0))
}

// An over-temperature flag.
fn is_hot<B: Backplane>(b: &B, k: usize) -> bool
    ensures { k < (B.Backplane.value b.now).configuration.counts.sensors + (B.Backplane.value b.now).configuration.counts.thermostats → result ≡ (B.Backplane.value b.now).inputs.hot k }
{
    b.input(Input::OverTemperature(k)) == Some(1)
}

// The codes of the fans.
pub fn fan_codes<B: Backplane>(b: &B) -> [FanCode; 16]
    ensures { take (B.Backplane.value b.now).configuration.counts.fans result ≡ listed (λ k. fan_of ((B.Backplane.value b.now).inputs.fan k)) (B.Backplane.value b.now).configuration.counts.fans }
{
    let fans = b.configuration().counts.fans as usize;
    array::from_fn(|k| if k < fans {
        fan_code(b, k)
    } else {
        FanCode::Unknown
    })
}

// The codes of the supplies.
pub fn supply_codes<B: Backplane>(b: &B) -> [SupplyCode; 8]
    ensures { take (B.Backplane.value b.now).configuration.counts.supplies result ≡ listed (λ k. supply_of ((B.Backplane.value b.now).inputs.supply k) ((B.Backplane.value b.now).outputs (Switch k) == 1)) (B.Backplane.value b.now).configuration.counts.supplies }
{
    let supplies = b.configuration().counts.supplies as usize;
    array::from_fn(|k| if k < supplies {
        supply_code(b, k)
    } else {
        SupplyCode::Unknown
    })
}

// The SCSI IDs of the slots.
pub fn ids<B: Backplane>(b: &B) -> [PlainByte; 14]
    ensures { take (B.Backplane.value b.now).configuration.counts.slots result ≡ listed (λ k. record { 0 = slice_index (B.Backplane.value b.now).configuration.ids k }) (B.Backplane.value b.now).configuration.counts.slots }
{
    let ids = b.configuration().ids;
    array::from_fn(|k| PlainByte(ids.get(k).copied().unwrap_or(0)))
}

// The bytes of the sensors.
pub fn temperatures<B: Backplane>(b: &B) -> [PlainByte; 15]
    ensures { take (B.Backplane.value b.now).configuration.counts.sensors result ≡ listed (λ k. record { 0 = (B.Backplane.value b.now).inputs.temperature k }) (B.Backplane.value b.now).configuration.counts.sensors }
{
    let sensors = b.configuration().counts.sensors as usize;
    array::from_fn(|k| if k < sensors {
        temperature(b, k)
    } else {
        PlainByte(0)
    })
}

// The over-temperature flags, of the sensors and then of the thermostats.
pub fn over_temperature<B: Backplane>(b: &B) -> [bool; 30]
    ensures { take ((B.Backplane.value b.now).configuration.counts.sensors + (B.Backplane.value b.now).configuration.counts.thermostats) result ≡ listed (λ k. (B.Backplane.value b.now).inputs.hot k) ((B.Backplane.value b.now).configuration.counts.sensors + (B.Backplane.value b.now).configuration.counts.thermostats) }
{
    let counts = b.configuration().counts;
    let flags = (counts.sensors + counts.thermostats) as usize;
    array::from_fn(|k| k < flags && is_hot(b, k))
}
