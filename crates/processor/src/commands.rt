// Commands.
ghost use Rattle.std.specs.Prelude.{◌≡◌, ℕ, ◌<◌, ◌≤◌, false, length, if◌then◌else◌, Ok, nat_eq};
ghost use Rattle.history.specs.Judgement.{on_host, order_in};
ghost use Rattle.hosts.specs.Held.{hosts_of};
ghost use Rattle.replies.specs.Answered.{answer_in, is_refusal, laid, result_of};
ghost use Rattle.table.specs.Table.{counts_of, slots_of};
ghost use Rattle.verdicts.specs.Judged.{verdict_as};
ghost use Rattle.processor.specs.Follows.{Unaltered, Untouched};
ghost use Rattle.processor.specs.Inside.{CommandedIn, FollowsCommand, IsUnaltered, Keeps, powered_by};
ghost use Rattle.processor.specs.Settled.{flags_by, slots_by, value_by};

use crate::shelf::Shelf;
use crate::state::Running;
use answers::refusal::Refusal;
use backplane::interface::Backplane;
use cdb::Command;
use driving::memory::obey;
use replies::reply::{Ended, reply};
use verdicts::{Verdict, judge};

impl Running {
    // Settles a command that comes to a verdict and is not refused: answers it, then does what it does to its host and to the shelf. That the buffer has 64 bytes is said in the clauses: `command` takes a slice of any length, and the promise tells all of it.
    fn settle<B: Backplane>(
        &mut self,
        b: &mut B,
        identity: &[u8; 36],
        host: u8,
        verdict: Verdict<'_>,
        buffer: &mut [u8],
    ) -> Ended
        ensures says { is_refusal (verdict_as verdict.entry) ≡ false → 64 ≤ length buffer.old → Ok result ≡ result_of (answer_in (B.Backplane.value b.old) self.old.memory identity.now (verdict_as verdict.entry) (hosts_of self.old.hosts host)) }
        ensures lays { 64 ≤ length buffer.old → buffer.new ≡ laid (answer_in (B.Backplane.value b.old) self.old.memory identity.now (verdict_as verdict.entry) (hosts_of self.old.hosts host)) buffer.old }
        ensures hosts { (k : ℕ) → k < 16 → hosts_of self.new.hosts k ≡ (if nat_eq k host then on_host (verdict_as verdict.entry) (hosts_of self.old.hosts k) else hosts_of self.old.hosts k) }
        ensures slots { (k : ℕ) → k < 14 → slots_of self.new.memory.table k ≡ slots_by (order_in (verdict_as verdict.entry)) (slots_of self.old.memory.table) k }
        ensures counts { counts_of self.new.memory.table ≡ counts_of self.old.memory.table }
        ensures flags { self.new.memory.flags ≡ flags_by (order_in (verdict_as verdict.entry)) self.old.memory.flags }
        ensures does { B.Backplane.value b.new ≡ value_by (order_in (verdict_as verdict.entry)) (slots_of self.new.memory.table) (B.Backplane.value b.old) }
    {
        let shown = self.hosts.get(host);
        let ended = reply(&*b, &self.memory, identity, verdict, shown, buffer);
        self.hosts.settle(host, verdict);
        if let Verdict::Obey(order) = verdict {
            obey(&mut self.memory, b, order);
        }
        ended
    }

    // Takes a command.
    fn command<'a, B: Backplane>(
        &mut self,
        b: &mut B,
        identity: &[u8; 36],
        host: u8,
        cdb: &'a [u8],
        payload: &'a [u8],
        buffer: &mut [u8],
    ) -> Result<Ended, Refusal>
        ensures follows { CommandedIn B.Backplane.reading (B.Backplane.value b.old) (powered_by self.old identity.now) (record { host = host; cdb = cdb.now; payload = payload.now; room = length buffer.old }) buffer.old buffer.new result (B.Backplane.value b.new) (powered_by self.new identity.now) }
        ensures untouched { Untouched result buffer.old buffer.new }
        ensures refused { Unaltered result (B.Backplane.value b.old) (B.Backplane.value b.new) (powered_by self.old identity.now) (powered_by self.new identity.now) }
        ensures configuration { (B.Backplane.value b.new).configuration ≡ (B.Backplane.value b.old).configuration }
        ensures beside { (B.Backplane.value b.new).beside ≡ (B.Backplane.value b.old).beside }
    {
        let command = Command {
            host,
            cdb,
            payload,
            room: buffer.len(),
        };
        let attention = self.hosts.get(host).attention;
        let verdict = judge(b.configuration(), attention, command);
        if let Verdict::Refuse(refusal) = verdict {
            return Err(refusal);
        }
        Ok(self.settle(b, identity, host, verdict, buffer))
    }
}

impl<B: Backplane> Shelf<'_, B> {
    // Takes a command.
    pub(crate) fn command<'a>(
        &mut self,
        host: u8,
        cdb: &'a [u8],
        payload: &'a [u8],
        buffer: &mut [u8],
    ) -> Result<Ended, Refusal>
        ensures follows { FollowsCommand B.Backplane.value B.Backplane.reading self.old (record { host = host; cdb = cdb.now; payload = payload.now; room = length buffer.old }) buffer.old buffer.new result self.new }
        ensures untouched { Untouched result buffer.old buffer.new }
        ensures refused { IsUnaltered B.Backplane.value result self.old self.new }
        ensures keeps { Keeps B.Backplane.value self.old self.new }
    {
        match &mut self.state.running {
            Some(running) => running.command(
                self.backplane,
                &self.state.identity,
                host,
                cdb,
                payload,
                buffer,
            ),
            None => Err(Refusal::Unpowered),
        }
    }
}
