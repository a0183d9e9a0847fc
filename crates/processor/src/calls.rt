// Power-on, samples and resets.
// Each call of a shelf, and `command` too, writes `follows`, `refused` and `keeps` of its own: `follows` names what the call follows, and the three facts are named once, in specs/Inside.
ghost use Rattle.std.specs.Prelude.{◌≡◌, ℕ, List};
ghost use Rattle.history.specs.Shelf.{power_on, reset, sample};
ghost use Rattle.processor.specs.Follows.{Unaltered};
ghost use Rattle.processor.specs.Inside.{Follows, FollowsIn, IsUnaltered, Keeps, powered_by};

use crate::shelf::Shelf;
use crate::state::Running;
use answers::refusal::Refusal;
use backplane::interface::Backplane;
use driving::frames::{see_slots, start_slots};
use hosts::Hosts;
use showing::show_slots;
use startup::switch_on;
use table::memory::Memory;
use table::rows::Table;

impl Running {
    // Samples a frame.
    fn sample<B: Backplane>(&mut self, b: &mut B, frame: &[u8]) -> Result<(), Refusal>
        ensures follows { (identity : List ℕ) → FollowsIn B.Backplane.reading (B.Backplane.value b.old) (powered_by self.old identity) (sample frame.now) result (B.Backplane.value b.new) (powered_by self.new identity) }
        ensures refused { (identity : List ℕ) → Unaltered result (B.Backplane.value b.old) (B.Backplane.value b.new) (powered_by self.old identity) (powered_by self.new identity) }
        ensures configuration { (B.Backplane.value b.new).configuration ≡ (B.Backplane.value b.old).configuration }
        ensures beside { (B.Backplane.value b.new).beside ≡ (B.Backplane.value b.old).beside }
    {
        b.sample(frame).map_err(|_| Refusal::Frame)?;
        see_slots(&mut self.memory.table, &*b);
        show_slots(b, &self.memory.table);
        Ok(())
    }
}

impl<B: Backplane> Shelf<'_, B> {
    // Powers the shelf on, with an insertion count for each slot.
    pub(crate) fn power_on(&mut self, counts: &[u16], frame: &[u8]) -> Result<(), Refusal>
        ensures follows { Follows B.Backplane.value B.Backplane.reading self.old (power_on counts.now frame.now) result self.new }
        ensures refused { IsUnaltered B.Backplane.value result self.old self.new }
        ensures keeps { Keeps B.Backplane.value self.old self.new }
    {
        let slots = self.backplane.configuration().counts.slots as usize;
        if slots == 0 {
            return Err(Refusal::NoSlots);
        }
        if counts.len() != slots {
            return Err(Refusal::Counts);
        }
        switch_on(self.backplane, frame).map_err(|_| Refusal::Frame)?;
        let mut table = Table::blank();
        start_slots(&mut table, &*self.backplane, counts);
        show_slots(self.backplane, &table);
        let memory = Memory {
            table,
            flags: [0; 3],
        };
        self.state.running = Some(Running {
            memory,
            hosts: Hosts::fresh(),
        });
        Ok(())
    }

    // Samples a frame.
    pub(crate) fn sample(&mut self, frame: &[u8]) -> Result<(), Refusal>
        ensures follows { Follows B.Backplane.value B.Backplane.reading self.old (sample frame.now) result self.new }
        ensures refused { IsUnaltered B.Backplane.value result self.old self.new }
        ensures keeps { Keeps B.Backplane.value self.old self.new }
    {
        match &mut self.state.running {
            Some(running) => running.sample(self.backplane, frame),
            None => Err(Refusal::Unpowered),
        }
    }

    // Drops every stored sense, and makes attention pending for all hosts.
    pub(crate) fn reset(&mut self) -> Result<(), Refusal>
        ensures follows { Follows B.Backplane.value B.Backplane.reading self.old reset result self.new }
        ensures refused { IsUnaltered B.Backplane.value result self.old self.new }
        ensures keeps { Keeps B.Backplane.value self.old self.new }
    {
        match &mut self.state.running {
            Some(running) => {
                running.hosts = Hosts::fresh();
                Ok(())
            }
            None => Err(Refusal::Unpowered),
        }
    }
}
