// What the reader is asked and what it answers.

// Why no part is handed out.
#[derive(Clone, Copy)]
pub enum Fault {
    // The configuration page is too short, or one of its counts is out of range.
    Configuration,
    // The page ends before the run does.
    Short,
    // The part number is not below the run's count.
    Number,
    // The bytes are no part of the run's kind.
    NoPart,
}

// A run of parts. Those of fans, supplies, IDs and temperatures stand in the status page, slots in the slot page, insertion counts in the insertion page.
#[derive(Clone, Copy)]
pub enum Run {
    Fans,
    Supplies,
    Ids,
    Temperatures,
    Slots,
    Counts,
    // A run that the reader does not know: it has no parts. It is a run as the others are, and no `Option` round them, since the configuration page is tested before the run.
    Unknown,
}

// A part that was found: where it stands in its page, and its bytes.
#[derive(Clone, Copy)]
pub struct Found<'a> {
    pub place: usize,
    pub bytes: &'a [u8],
}
