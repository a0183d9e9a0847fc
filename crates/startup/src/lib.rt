// What every backplane is set to as its shelf is switched on, apart from the slots.
#![tactic(auto)]

ghost use Rattle.std.specs.Prelude.{◌≡◌, ℕ, ◌<◌, is_ok};
ghost use Rattle.backplane.specs.Meaning.{numbers, «reads_well»};
ghost use Rattle.backplane.specs.Rows.{place_in, row_below, row_length};
ghost use Rattle.backplane.specs.declared.places.Output.{Output as Place};
ghost use Rattle.startup.specs.Started.{fans_below, made_where, start_number, started, supplies_below, switched_on};

use backplane::interface::{Backplane, Unread};
use backplane::places::Output;
use backplane::rows::Row;

// Makes each output of a row a number that the row takes. By the places' numbers, since a backplane has no slice of its outputs.
fn set_row<B: Backplane>(b: &mut B, row: Row, number: u8)
    requires { number < numbers (place_in row 0) }
    ensures { (f : Place → ℕ) → ((k : ℕ) → f (place_in row k) ≡ number) → B.Backplane.value b.new ≡ made_where (row_below row (row_length row (B.Backplane.value b.old).configuration)) f (B.Backplane.value b.old) }
{
    for k in 0..row.length(b.configuration()) {
        let _ = b.set(row.place(k as usize), number);
    }
}

// Runs each fan at 4.
pub fn start_fans<B: Backplane>(b: &mut B)
    ensures { B.Backplane.value b.new ≡ made_where (fans_below (B.Backplane.value b.old).configuration.counts.fans) start_number (B.Backplane.value b.old) }
{
    set_row(b, Row::Speeds, 4);
}

// Switches each supply on.
pub fn start_supplies<B: Backplane>(b: &mut B)
    ensures { B.Backplane.value b.new ≡ made_where (supplies_below (B.Backplane.value b.old).configuration.counts.supplies) start_number (B.Backplane.value b.old) }
{
    set_row(b, Row::Supplies, 1);
}

// Runs each fan at 4, switches each supply on, the alarm off and the lock open. All else is as it was.
pub fn start<B: Backplane>(b: &mut B)
    ensures { B.Backplane.value b.new ≡ started (B.Backplane.value b.old) }
{
    start_fans(b);
    start_supplies(b);
    let _ = b.set(Output::Alarm, 0);
    let _ = b.set(Output::Lock, 0);
}

// Samples the frame and then starts; a frame that reads as nothing is refused, and all is as it was.
pub fn switch_on<B: Backplane>(b: &mut B, frame: &[u8]) -> Result<(), Unread>
    ensures says { is_ok result ≡ reads_well (B.Backplane.reading (B.Backplane.value b.old).configuration frame.now) }
    ensures does { B.Backplane.value b.new ≡ switched_on (B.Backplane.value b.old) (B.Backplane.reading (B.Backplane.value b.old).configuration frame.now) }
{
    b.sample(frame)?;
    start(b);
    Ok(())
}
