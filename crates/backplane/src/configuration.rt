// What a shelf is fitted with. It never changes.
use enclosure::counts::PartCounts;

#[derive(Clone, Copy)]
pub struct Configuration {
    pub counts: PartCounts,
    pub lock: bool,
    pub alarm: bool,
    // The SCSI ID of each slot; past the slots 0.
    pub ids: [u8; 14],
}

// What a shelf is to be fitted with: any counts, and any IDs.
#[derive(Clone, Copy)]
pub struct Fittings<'a> {
    pub counts: PartCounts,
    pub lock: bool,
    pub alarm: bool,
    pub ids: &'a [u8],
}
