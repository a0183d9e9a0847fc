// The three layers of the reader: part, page and call. A fault of a layer passes up unaltered.
ghost use Rattle.std.specs.Prelude.{◌≡◌, ℕ, ◌+◌, ◌*◌, ◌≤◌, length};
ghost use Rattle.std.specs.Option.{ok_or};
ghost use Rattle.part_runs.specs.Runs.{part_bytes};
ghost use Rattle.reader.specs.declared.fault.Fault.TheVariants.{NoPart};
ghost use Rattle.reader.specs.Reads.{counts_of, read_part, run_part, told};

use crate::fault::{Fault, Found, Run};
use enclosure::codes::{FanCode, SupplyCode};
use enclosure::counts::PartCounts;
use part_runs::part_of_run;
use parts::kinds::{InsertionCount, PlainByte, Slot};
use parts::part::Part;

// The part layer: part `number` of the run that begins at `start`.
fn part<P: Part>(page: &[u8], start: usize, number: usize) -> Result<P, Fault>
    ensures { result ≡ ok_or (P.Part.reads (part_bytes P.Part.WIDTH page.now start number)) NoPart }
{
    part_of_run::<P>(page, start, number).ok_or(Fault::NoPart)
}

// The page layer: where part `number` of a run of `count` parts that begins at `start` stands, and its bytes.
// Start and count are no struct, since only `read_part` below pairs them, once for each run.
fn in_run<P: Part + Drop>(
    page: &[u8],
    start: usize,
    count: u8,
    number: usize,
) -> Result<Found<'_>, Fault>
    requires { start ≤ 1000 }
    ensures { told result ≡ run_part P.Part.WIDTH P.Part.reads page.now start count number }
{
    let count = usize::from(count);
    if page.len() < start + count * P::WIDTH {
        return Err(Fault::Short);
    }
    if number >= count {
        return Err(Fault::Number);
    }
    part::<P>(page, start, number)?;
    let place = start + number * P::WIDTH;
    let bytes = &page[place..place + P::WIDTH];
    Ok(Found { place, bytes })
}

// The counts that a configuration page states.
fn counts_of(config: &[u8]) -> Result<PartCounts, Fault>
    ensures { result ≡ counts_of config.now }
{
    let Some(&[fans, supplies, slots, _, sensors, _, thermostats, ..]) = config.first_chunk::<64>()
    else {
        return Err(Fault::Configuration);
    };
    let counts = PartCounts {
        fans,
        supplies,
        slots,
        sensors,
        thermostats,
    };
    if counts.in_range() {
        Ok(counts)
    } else {
        Err(Fault::Configuration)
    }
}

// The call layer: part `number` of a run of a page, by the configuration page of the same shelf.
pub fn read_part<'a>(
    config: &[u8],
    page: &'a [u8],
    run: Run,
    number: usize,
) -> Result<Found<'a>, Fault>
    ensures { told result ≡ read_part config.now page.now run number }
{
    let counts = counts_of(config)?;
    let fans = usize::from(counts.fans);
    let supplies = usize::from(counts.supplies);
    let slots = usize::from(counts.slots);
    match run {
        Run::Fans => in_run::<FanCode>(page, 0, counts.fans, number),
        Run::Supplies => in_run::<SupplyCode>(page, fans, counts.supplies, number),
        Run::Ids => in_run::<PlainByte>(page, fans + supplies, counts.slots, number),
        Run::Temperatures => in_run::<PlainByte>(
            page,
            fans + supplies + slots + 2,
            counts.sensors,
            number,
        ),
        Run::Slots => in_run::<Slot>(page, 0, counts.slots, number),
        Run::Counts => in_run::<InsertionCount>(page, 0, counts.slots, number),
        Run::Unknown => Err(Fault::Number),
    }
}
