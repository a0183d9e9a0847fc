// The status page.
ghost use Rattle.std.specs.Prelude.{◌≡◌, length, nat_le};
ghost use Rattle.pages.specs.Into.{laid_front, length_within};
ghost use Rattle.pages.specs.Pages.{door_byte, shown, speaker_byte, status_page, status_size};
ghost use Rattle.pages.specs.ReadBack.{StatusBack};

use crate::heat::heat_bytes;
use enclosure::codes::{FanCode, SupplyCode};
use part_runs::put_run;
use parts::kinds::PlainByte;

// What the status page shows. A lock or an alarm that is not fitted is `None`; otherwise it says whether the lock is set or the alarm sounds.
// The over-temperature flags are those of the sensors and then those of the thermostats.
#[derive(Clone, Copy)]
pub struct StatusParts<'a> {
    pub fans: &'a [FanCode],
    pub supplies: &'a [SupplyCode],
    pub ids: &'a [PlainByte],
    pub lock: Option<bool>,
    pub alarm: Option<bool>,
    pub temperatures: &'a [PlainByte],
    pub over_temperature: &'a [bool],
}

impl StatusParts<'_> {
    // Whether the page fits into `len` bytes.
    fn fit(self, len: usize) -> bool
        ensures { result ≡ nat_le (status_size (shown self.entry)) len }
    {
        let left = len
            .saturating_sub(self.fans.len())
            .saturating_sub(self.supplies.len())
            .saturating_sub(self.ids.len())
            .saturating_sub(self.temperatures.len());
        left >= 5
    }
}

// The byte of the door: 0 where a lock is fitted and set.
fn door_byte(lock: Option<bool>) -> u8
    ensures { result ≡ door_byte lock }
{
    u8::from(lock != Some(true))
}

// The byte of the speaker: 1 where an alarm is fitted and sounds.
fn speaker_byte(alarm: Option<bool>) -> u8
    ensures { result ≡ speaker_byte alarm }
{
    u8::from(alarm == Some(true))
}

// Lays the status page and answers its length. Where the buffer is too small, answers `None` and leaves it.
pub fn lay_status(parts: StatusParts<'_>, buffer: &mut [u8]) -> Option<usize>
    ensures len { result ≡ length_within (status_page (shown parts.entry)) (length buffer.old) }
    ensures page { buffer.new ≡ laid_front (status_page (shown parts.entry)) buffer.old }
    ensures size { length (status_page (shown parts.entry)) ≡ status_size (shown parts.entry) }
    ensures back { StatusBack (shown parts.entry) buffer.old buffer.new }
{
    if !parts.fit(buffer.len()) {
        return None;
    }
    let door = PlainByte(door_byte(parts.lock));
    let speaker = PlainByte(speaker_byte(parts.alarm));
    let [first, second] = heat_bytes(parts.over_temperature);
    let at = put_run(parts.fans, buffer, 0);
    let at = put_run(parts.supplies, buffer, at);
    let at = put_run(parts.ids, buffer, at);
    let at = put_run(&[door, speaker], buffer, at);
    let at = put_run(parts.temperatures, buffer, at);
    let ending = [PlainByte(first), PlainByte(second), PlainByte(0x00)];
    Some(put_run(&ending, buffer, at))
}
