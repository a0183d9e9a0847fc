// The reply to a command.
ghost use Rattle.std.specs.Prelude.{◌≡◌, ◌≤◌, false, ◌++◌, length, take, drop, Ok};
ghost use Rattle.history.specs.Replies.{page_bytes};
ghost use Rattle.hosts.specs.Held.{host_as};
ghost use Rattle.replies.specs.Answered.{answer_in, is_refusal, laid, result_of};
ghost use Rattle.shelf_pages.specs.Held.{parts_in, rest_in};
ghost use Rattle.verdicts.specs.Judged.{verdict_as};

use crate::bytes::{inquiry_bytes, send, sense_bytes};
use answers::sense::Sense;
use answers::status::Status;
use backplane::interface::Backplane;
use hosts::Host;
use shelf_pages::page;
use table::memory::Memory;
use verdicts::Verdict;

// The status of a command, and the number of bytes that it sends. They stand in the caller's buffer, all of which the promise tells; a slice of it that is lent out would leave the rest unsaid.
#[derive(Clone, Copy)]
pub struct Ended {
    pub status: Status,
    pub len: usize,
}

// Sends a page, up to a length. That the buffer has 64 bytes is said in the clauses, here and at `reply`: a type of such buffers would be narrower than the slice of any length that a caller may give.
fn show_page<B: Backplane>(b: &B, memory: &Memory, id: u8, limit: usize, buffer: &mut [u8]) -> usize
    ensures len { 64 ≤ length buffer.old → result ≡ length (take limit (page_bytes (B.Backplane.value b.now).configuration id (parts_in (B.Backplane.value b.now) memory.now) (rest_in (B.Backplane.value b.now) memory.now))) }
    ensures laid { 64 ≤ length buffer.old → buffer.new ≡ take limit (page_bytes (B.Backplane.value b.now).configuration id (parts_in (B.Backplane.value b.now) memory.now) (rest_in (B.Backplane.value b.now) memory.now)) ++ drop result buffer.old }
{
    let mut laid = [0; 64];
    send(page(b, memory, id, &mut laid), limit, buffer)
}

// Answers a command that comes to a verdict and is not refused, by what the shelf holds before it. The buffer has 64 bytes at least.
// The backplane and the memory are two parameters: a reply borrows both to read, an order borrows both to change, and a struct of two borrows would be needed once for each.
pub fn reply<B: Backplane>(
    b: &B,
    memory: &Memory,
    identity: &[u8; 36],
    verdict: Verdict<'_>,
    host: Host,
    buffer: &mut [u8],
) -> Ended
    ensures says { is_refusal (verdict_as verdict.entry) ≡ false → 64 ≤ length buffer.old → Ok result ≡ result_of (answer_in (B.Backplane.value b.now) memory.now identity.now (verdict_as verdict.entry) (host_as host)) }
    ensures lays { 64 ≤ length buffer.old → buffer.new ≡ laid (answer_in (B.Backplane.value b.now) memory.now identity.now (verdict_as verdict.entry) (host_as host)) buffer.old }
{
    let len = match verdict {
        Verdict::Refuse(_) | Verdict::Miss | Verdict::Attend | Verdict::Reject(_) => {
            return Ended {
                status: Status::CheckCondition,
                len: 0,
            };
        }
        Verdict::Pass | Verdict::Obey(_) => 0,
        Verdict::MissInquiry(limit) => send(&inquiry_bytes(0x7F, identity), limit as usize, buffer),
        Verdict::MissSense(limit) => send(&sense_bytes(Sense::LogicalUnit), limit as usize, buffer),
        Verdict::Inquire(limit) => send(&inquiry_bytes(0x03, identity), limit as usize, buffer),
        Verdict::ShowSense(limit) => send(&sense_bytes(host.shown()), limit as usize, buffer),
        Verdict::ShowPage { id, limit } => show_page(b, memory, id, limit, buffer),
    };
    Ended {
        status: Status::Good,
        len,
    }
}
