// What a plain backplane holds: the last frame that was sampled, and the number at each output.
ghost use Rattle.std.specs.Prelude.{◌≡◌, length};

// What is set at a slot.
#[derive(Clone, Copy)]
pub struct SlotOutputs {
    pub lamp: u8,
    pub connected: bool,
}

#[derive(Clone, Copy)]
pub struct Tables {
    // the frame, and zeros after it
    pub frame: [u8; 83],
    pub slots: [SlotOutputs; 14],
    pub speeds: [u8; 16],
    pub supplies: [bool; 8],
    pub alarm: bool,
    pub lock: bool,
    ghost long_frame: { length frame ≡ 83 },
    ghost long_slots: { length slots ≡ 14 },
    ghost long_speeds: { length speeds ≡ 16 },
    ghost long_supplies: { length supplies ≡ 8 },
}
