// The pages of a shelf, laid from its backplane and what it keeps.
// The functions that lay a page answer its length: the promise tells what the buffer then holds, which a slice that borrows the buffer would leave unsaid. `page` hands out the slice.
#![tactic(auto)]

ghost use Rattle.std.specs.Prelude.{◌≡◌, ◌≤◌, length};
ghost use Rattle.history.specs.Replies.{listed, page_bytes, slot_page, status_of};
ghost use Rattle.pages.specs.Pages.{configuration_page, global_flags_page, insertions_page, status_page};
ghost use Rattle.shelf_pages.specs.Held.{Front, parts_in, rest_in, set_if, status_parts, status_rest};
ghost use Rattle.table.specs.Table.{counts_of, slots_of};

use backplane::interface::Backplane;
use backplane::places::Output;
use gathering::inputs::{fan_codes, ids, over_temperature, supply_codes, temperatures};
use gathering::kept::{insertion_counts, slots_shown};
use pages::configuration::lay_configuration;
use pages::flags::lay_global_flags;
use pages::slots::{lay_insertions, lay_slots};
use pages::status::{StatusParts, lay_status};
use table::memory::Memory;
use table::rows::Table;

// Whether something that is fitted is set.
fn if_fitted(fitted: bool, number: Option<u8>) -> Option<bool>
    ensures { result ≡ set_if fitted number }
{
    fitted.then_some(number == Some(1))
}

// The status page.
fn status<B: Backplane>(b: &B, buffer: &mut [u8; 64]) -> usize
    ensures { Front (status_page (status_of (B.Backplane.value b.now).configuration (status_parts (B.Backplane.value b.now)) (status_rest (B.Backplane.value b.now)))) buffer.new result }
{
    let c = b.configuration();
    let counts = c.counts;
    let heat = counts.sensors + counts.thermostats;
    let parts = StatusParts {
        fans: &fan_codes(b)[..counts.fans as usize],
        supplies: &supply_codes(b)[..counts.supplies as usize],
        ids: &ids(b)[..counts.slots as usize],
        lock: if_fitted(c.lock, b.output(Output::Lock)),
        alarm: if_fitted(c.alarm, b.output(Output::Alarm)),
        temperatures: &temperatures(b)[..counts.sensors as usize],
        over_temperature: &over_temperature(b)[..heat as usize],
    };
    lay_status(parts, buffer).unwrap_or(0)
}

// The configuration page.
fn configuration<B: Backplane>(b: &B, buffer: &mut [u8; 64]) -> usize
    ensures { Front (configuration_page (B.Backplane.value b.now).configuration.counts (B.Backplane.value b.now).configuration.lock (B.Backplane.value b.now).configuration.alarm) buffer.new result }
{
    let c = b.configuration();
    lay_configuration(c.counts, c.lock, c.alarm, buffer).unwrap_or(0)
}

// How many slots there are.
fn slot_count<B: Backplane>(b: &B) -> usize
    ensures is { result ≡ (B.Backplane.value b.now).configuration.counts.slots }
    ensures few { result ≤ 14 }
{
    b.configuration().counts.slots as usize
}

// The insertion page.
fn insertions<B: Backplane>(b: &B, table: &Table, buffer: &mut [u8; 64]) -> usize
    ensures { Front (insertions_page (listed (λ k. record { 0 = counts_of table.now k }) (B.Backplane.value b.now).configuration.counts.slots)) buffer.new result }
{
    let counts = insertion_counts(table);
    lay_insertions(&counts[..slot_count(b)], buffer).unwrap_or(0)
}

// The slot page.
fn slots<B: Backplane>(b: &B, table: &Table, buffer: &mut [u8; 64]) -> usize
    ensures { Front (slot_page (listed (slots_of table.now) (B.Backplane.value b.now).configuration.counts.slots)) buffer.new result }
{
    let shown = slots_shown(table);
    lay_slots(&shown[..slot_count(b)], buffer).unwrap_or(0)
}

// The page of global flags. They are an array of three bytes: any three are flags and they are laid as they come, so a type of their own would keep nothing out.
fn global_flags(flags: [u8; 3], buffer: &mut [u8; 64]) -> usize
    ensures { Front (global_flags_page flags) buffer.new result }
{
    lay_global_flags(flags, buffer).unwrap_or(0)
}

// Lays a page of a shelf at the front of the buffer, and answers its length. It is asked for by a number and not by an enum, since every number has a page: one that names none has the global flags.
// The backplane and the memory are two parameters, as the backplane and the table are above: a page borrows both to read, an order borrows both to change, and a struct of two borrows would be needed once for each.
pub fn lay_page<B: Backplane>(b: &B, memory: &Memory, id: u8, buffer: &mut [u8; 64]) -> usize
    ensures { Front (page_bytes (B.Backplane.value b.now).configuration id (parts_in (B.Backplane.value b.now) memory.now) (rest_in (B.Backplane.value b.now) memory.now)) buffer.new result }
{
    match id {
        0 => configuration(b, buffer),
        1 => status(b, buffer),
        3 => insertions(b, &memory.table, buffer),
        4 => slots(b, &memory.table, buffer),
        _ => global_flags(memory.flags, buffer),
    }
}

// Lays a page as `lay_page` does, and hands it out as a slice of the buffer.
pub fn page<'p, B: Backplane>(b: &B, memory: &Memory, id: u8, buffer: &'p mut [u8; 64]) -> &'p [u8]
    ensures short { length result.now ≤ 64 }
    ensures page { result.now ≡ page_bytes (B.Backplane.value b.now).configuration id (parts_in (B.Backplane.value b.now) memory.now) (rest_in (B.Backplane.value b.now) memory.now) }
{
    let len = lay_page(b, memory, id, buffer);
    &buffer[..len]
}
