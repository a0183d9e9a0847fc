// The status of a command that is not refused.
ghost use Rattle.std.specs.Prelude.{◌≡◌};
ghost use Rattle.answers.specs.Numbers.{status_byte};

#[derive(Clone, Copy)]
pub enum Status {
    Good,
    CheckCondition,
}

// The byte of the status.
impl From<Status> for u8 {
    ghost from_gives = { λ status byte. byte ≡ status_byte status };

    fn from(status: Status) -> u8 {
        match status {
            Status::Good => 0x00,
            Status::CheckCondition => 0x02,
        }
    }
}
