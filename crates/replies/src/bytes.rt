// The bytes of INQUIRY and REQUEST SENSE, and sending bytes up to a length.
ghost use Rattle.std.specs.Prelude.{◌≡◌, ◌≤◌, ◌++◌, length, take, drop};
ghost use Rattle.history.specs.Replies.{inquiry_bytes, sense_bytes};

use answers::sense::Sense;

// The 56 bytes of INQUIRY.
pub fn inquiry_bytes(first: u8, identity: &[u8; 36]) -> [u8; 56]
    ensures { result ≡ inquiry_bytes first identity.now }
{
    let mut bytes = [0x00; 56];
    bytes[..8].copy_from_slice(&[first, 0x00, 0x02, 0x02, 0x33, 0x00, 0x00, 0x00]);
    bytes[44..54].copy_from_slice(b"SAF-TE1.00");
    bytes[8..44].copy_from_slice(identity);
    bytes
}

// The 18 bytes of sense data. This is no `From`: that would stand beside `Sense` in crate `answers`, which knows no bytes of a reply.
pub fn sense_bytes(sense: Sense) -> [u8; 18]
    ensures { result ≡ sense_bytes sense }
{
    let (key, code, qualifier) = (sense.key(), sense.code(), sense.qualifier());
    [
        0xF0, 0x00, key, 0x00, 0x00, 0x00, 0x00, 0x0A, 0x00, 0x00, 0x00, 0x00, code, qualifier,
        0x00, 0x00, 0x00, 0x00,
    ]
}

// Lays the first `limit` bytes at the front of the buffer, if it has room for all of them, and answers how many they are. Without room it answers 0, as where nothing is sent: to require room would ask more of its callers, and an `Option` would only be made a 0 again, since `reply` answers for a buffer of any length.
pub fn send(bytes: &[u8], limit: usize, reply: &mut [u8]) -> usize
    ensures len { length bytes.now ≤ length reply.old → result ≡ length (take limit bytes.now) }
    ensures laid { length bytes.now ≤ length reply.old → reply.new ≡ take limit bytes.now ++ drop (length (take limit bytes.now)) reply.old }
{
    let len = limit.min(bytes.len());
    if len > reply.len() {
        return 0;
    }
    reply[..len].copy_from_slice(&bytes[..len]);
    len
}
