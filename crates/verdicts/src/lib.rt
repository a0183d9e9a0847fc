// What a command comes to.
#![tactic(auto)]

ghost use Rattle.std.specs.Prelude.{◌≡◌, ◌&&◌, ◌==◌, length, nat_lt};
ghost use Rattle.cdb.specs.Heard.{heard};
ghost use Rattle.history.specs.Judgement.{is_page, judge, missed, obeying, opcode_verdict, unit_verdict};
ghost use Rattle.history.specs.Orders.{order_of};
ghost use Rattle.verdicts.specs.Judged.{verdict_as};
ghost use Rattle.history.specs.Cdb.{long_length, opcode, sent};
ghost use Rattle.cdb.specs.Opcodes.{opcode_read};

use answers::refusal::Refusal;
use answers::sense::Sense;
use backplane::configuration::Configuration;
use cdb::Command;
use cdb::opcode::Opcode;
use orders::order::Order;
use orders::reading::read_order;

// A refusal is a verdict and no error beside it, since those who take verdicts take any.
#[derive(Clone, Copy)]
pub enum Verdict<'a> {
    Refuse(Refusal),
    // another logical unit: CHECK CONDITION, INQUIRY and REQUEST SENSE with the length wanted
    Miss,
    MissInquiry(u8),
    MissSense(u8),
    // pending attention is told
    Attend,
    // GOOD, and nothing to do
    Pass,
    Reject(Sense),
    // INQUIRY and REQUEST SENSE with the length wanted
    Inquire(u8),
    ShowSense(u8),
    // a page and the length wanted; its number is no enum, since any number may be asked of the crate that lays pages
    ShowPage { id: u8, limit: usize },
    Obey(Order<'a>),
}

// Whether a buffer ID is a page.
fn is_page(id: u8) -> bool
    ensures { result ≡ is_page id }
{
    matches!(id, 0x00 | 0x01 | 0x03 | 0x04 | 0x05)
}

// The opcode of a command, if it is one that a shelf knows.
fn opcode(command: Command<'_>) -> Option<Opcode>
    ensures { result ≡ opcode_read (opcode (heard command.entry)) }
{
    Opcode::try_from(command.opcode()).ok()
}

// Whether it is a WRITE BUFFER with less data than its length says.
fn lacks_data(command: Command<'_>) -> bool
    ensures { result ≡ (opcode (heard command.entry) == 0x3B && nat_lt (length (heard command.entry).payload) (long_length (heard command.entry))) }
{
    matches!(opcode(command), Some(Opcode::WriteBuffer))
        && command.payload.len() < command.long_length()
}

// What the data of a WRITE BUFFER comes to. Configuration and command are no struct, here and below: `judge` takes them apart, and each function would read its fields through one more name.
fn obeying<'a>(c: Configuration, command: Command<'a>) -> Verdict<'a>
    ensures { verdict_as result ≡ obeying (order_of c (sent (heard command.entry))) }
{
    match read_order(c, command.sent()) {
        Some(order) => Verdict::Obey(order),
        None => Verdict::Reject(Sense::Order),
    }
}

// A command to logical unit 0 with no attention pending, and neither INQUIRY nor REQUEST SENSE. Modes stay numbers, since 1 is the only one that means anything.
fn by_opcode<'a>(c: Configuration, command: Command<'a>) -> Verdict<'a>
    ensures { verdict_as result ≡ opcode_verdict c (heard command.entry) }
{
    match (opcode(command), command.mode(), command.buffer_id()) {
        (Some(Opcode::TestUnitReady | Opcode::SendDiagnostic), _, _) => Verdict::Pass,
        (Some(Opcode::WriteBuffer), 1, _) if command.long_length() == 0 => Verdict::Pass,
        (Some(Opcode::WriteBuffer), 1, _) => obeying(c, command),
        (Some(Opcode::ReadBuffer), 1, id) if is_page(id) => Verdict::ShowPage {
            id,
            limit: command.long_length(),
        },
        (Some(Opcode::WriteBuffer | Opcode::ReadBuffer), _, _) => Verdict::Reject(Sense::Field),
        _ => Verdict::Reject(Sense::Opcode),
    }
}

// A command to logical unit 0.
fn on_unit<'a>(c: Configuration, attention: bool, command: Command<'a>) -> Verdict<'a>
    ensures { verdict_as result ≡ unit_verdict c attention (heard command.entry) }
{
    match opcode(command) {
        Some(Opcode::Inquiry) => Verdict::Inquire(command.short_length()),
        Some(Opcode::RequestSense) => Verdict::ShowSense(command.short_length()),
        _ if attention => Verdict::Attend,
        _ => by_opcode(c, command),
    }
}

// A command to another logical unit.
fn elsewhere(command: Command<'_>) -> Verdict<'_>
    ensures { verdict_as result ≡ missed (heard command.entry) }
{
    match opcode(command) {
        Some(Opcode::Inquiry) => Verdict::MissInquiry(command.short_length()),
        Some(Opcode::RequestSense) => Verdict::MissSense(command.short_length()),
        _ => Verdict::Miss,
    }
}

// What a command comes to, by the configuration, its host's pending attention and the command alone.
pub fn judge<'a>(c: Configuration, attention: bool, command: Command<'a>) -> Verdict<'a>
    ensures { verdict_as result ≡ judge c attention (heard command.entry) }
{
    if command.host > 15 {
        return Verdict::Refuse(Refusal::Host);
    }
    if command.is_ill_formed() {
        return Verdict::Refuse(Refusal::Cdb);
    }
    if lacks_data(command) {
        return Verdict::Refuse(Refusal::Data);
    }
    if command.room < 64 {
        return Verdict::Refuse(Refusal::Room);
    }
    if command.unit() == 0 {
        on_unit(c, attention, command)
    } else {
        elsewhere(command)
    }
}
