// Which order bytes are.
ghost use Rattle.std.specs.Prelude.{◌≡◌, ◌%◌, not};
ghost use Rattle.std.specs.List.{list_all};
ghost use Rattle.std.specs.Option.{option_map};
ghost use Rattle.history.specs.Orders.{both_rebuild, fan_speed, global_flags, operation_of, order_of, slot_operation, slot_status, supply_switch, triple_in};
ghost use Rattle.orders.specs.Decoded.{operation_as, order_as};
ghost use Rattle.orders.specs.Numbered.{numbered};

use crate::order::{Operation, Order};
use crate::triples::{has_both_rebuild, row};
use backplane::configuration::Configuration;

// Whether no triple has both rebuild flags.
fn are_sound(triples: &[[u8; 3]]) -> bool
    ensures { result ≡ list_all (λ t. not (both_rebuild (triple_in t 0))) triples.now }
{
    triples.iter().all(|triple| !has_both_rebuild(row(*triple)))
}

// The operation that flags ask for: of bits 0 to 2 none or exactly one may be set.
fn operation(flags: u8) -> Option<Operation>
    ensures { option_map operation_as result ≡ operation_of (flags % 8) }
{
    match flags % 8 {
        0 => Some(Operation::Idle),
        1 => Some(Operation::Prepare),
        2 => Some(Operation::Release),
        4 => Some(Operation::Identify),
        _ => None,
    }
}

// Order 10h: a triple for each slot. Configuration and bytes are no struct, here and below, since each reader needs one count of the one and some bytes of the other.
fn slot_status(c: Configuration, bytes: &[u8]) -> Option<Order<'_>>
    ensures { option_map order_as result ≡ slot_status c bytes.now }
{
    let end = 3 * usize::from(c.counts.slots) + 1;
    let triples = bytes.get(1..end)?;
    are_sound(triples.as_chunks().0).then_some(Order::Triples(triples))
}

// The number of a part below `count` and the byte below `most` after it, if that is what follows the code.
fn numbered(bytes: &[u8], count: u8, most: u8) -> Option<(usize, u8)>
    ensures { result ≡ numbered bytes.now count most }
{
    match bytes {
        [_, part, byte, ..] if *part < count && *byte < most => Some((usize::from(*part), *byte)),
        _ => None,
    }
}

// Order 12h: an operation on a slot. Not by `numbered`, since any byte may follow the slot.
fn slot_operation(c: Configuration, bytes: &[u8]) -> Option<Order<'_>>
    ensures { option_map order_as result ≡ slot_operation c bytes.now }
{
    match bytes {
        [_, slot, flags, ..] if *slot < c.counts.slots => Some(Order::Operate {
            slot: usize::from(*slot),
            operation: operation(*flags)?,
        }),
        _ => None,
    }
}

// Order 13h: the speed of a fan.
fn fan_speed(c: Configuration, bytes: &[u8]) -> Option<Order<'_>>
    ensures { option_map order_as result ≡ fan_speed c bytes.now }
{
    let (fan, speed) = numbered(bytes, c.counts.fans, 5)?;
    Some(Order::Speed { fan, speed })
}

// Order 14h: a supply on or off.
fn supply_switch(c: Configuration, bytes: &[u8]) -> Option<Order<'_>>
    ensures { option_map order_as result ≡ supply_switch c bytes.now }
{
    let (supply, on) = numbered(bytes, c.counts.supplies, 2)?;
    Some(Order::Switch {
        supply,
        on: on == 1,
    })
}

// Order 15h: the global flags.
fn global_flags(bytes: &[u8]) -> Option<Order<'_>>
    ensures { option_map order_as result ≡ global_flags bytes.now }
{
    match bytes {
        [_, first, second, third, ..] => Some(Order::Global([*first, *second, *third])),
        _ => None,
    }
}

// The order that bytes are, for a shelf with this configuration. Its first byte is a code that is read here alone.
pub fn read_order(c: Configuration, bytes: &[u8]) -> Option<Order<'_>>
    ensures { option_map order_as result ≡ order_of c bytes.now }
{
    match bytes {
        [0x10, ..] => slot_status(c, bytes),
        [0x12, ..] => slot_operation(c, bytes),
        [0x13, ..] => fan_speed(c, bytes),
        [0x14, ..] => supply_switch(c, bytes),
        [0x15, ..] => global_flags(bytes),
        _ => None,
    }
}
