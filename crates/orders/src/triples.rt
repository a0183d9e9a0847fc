// The triples of an order 10h.
ghost use Rattle.std.specs.Prelude.{◌≡◌};
ghost use Rattle.history.specs.Orders.{both_rebuild, flagged, stored, triple_in};
ghost use Rattle.orders.specs.Decoded.{first_of, parted};

use enclosure::record::SlotRecord;
use enclosure::record::rows::Row;

// The row of a triple. It is no `From`, which would have to stand where `Row` does, in a crate that knows no triples.
pub fn row(triple: [u8; 3]) -> Row
    ensures { result ≡ triple_in triple 0 }
{
    let [flags, more, last] = triple;
    Row { flags, more, last }
}

// Whether one of its ten flags is set.
pub fn is_flagged(triple: Row) -> bool
    ensures { result ≡ flagged triple }
{
    triple.flags != 0 || triple.more % 4 != 0
}

// Whether it has both rebuild flags, so that what is stored of it is no record.
pub fn has_both_rebuild(triple: Row) -> bool
    ensures { result ≡ both_rebuild triple }
{
    SlotRecord::try_from(to_store(triple)).is_err()
}

// The record that it becomes: reserved bits are 0. It is a row as the triple is, and so no `From`.
pub fn to_store(triple: Row) -> Row
    ensures { result ≡ stored triple }
{
    Row {
        more: triple.more % 4,
        last: 0,
        ..triple
    }
}

// The first triple, and the rest; nothing where under three bytes are left. Bytes that come a few at a time are read by it, where `as_chunks` takes them all.
pub fn next_triple(bytes: &[u8]) -> Option<(Row, &[u8])>
    ensures { parted result ≡ first_of bytes.now }
{
    match bytes {
        [flags, more, last, rest @ ..] => Some((row([*flags, *more, *last]), rest)),
        _ => None,
    }
}
