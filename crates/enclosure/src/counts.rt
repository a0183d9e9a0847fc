// How many parts of each kind a shelf has.
ghost use Rattle.std.specs.Prelude.{◌≡◌};
ghost use Rattle.enclosure.specs.Ranges.{in_range};

#[derive(Clone, Copy)]
pub struct PartCounts {
    pub fans: u8,
    pub supplies: u8,
    pub slots: u8,
    pub sensors: u8,
    pub thermostats: u8,
}

impl PartCounts {
    pub const MOST_FANS: u8 = 16;

    pub const MOST_SUPPLIES: u8 = 8;

    pub const FEWEST_SLOTS: u8 = 1;

    pub const MOST_SLOTS: u8 = 14;

    pub const MOST_SENSORS: u8 = 15;

    pub const MOST_THERMOSTATS: u8 = 15;

    // Whether a shelf may have these counts.
    pub fn in_range(self) -> bool
        ensures { result ≡ in_range self }
    {
        self.fans <= Self::MOST_FANS
            && self.supplies <= Self::MOST_SUPPLIES
            && (Self::FEWEST_SLOTS..=Self::MOST_SLOTS).contains(&self.slots)
            && self.sensors <= Self::MOST_SENSORS
            && self.thermostats <= Self::MOST_THERMOSTATS
    }
}
