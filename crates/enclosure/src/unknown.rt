// A byte that names nothing of the kind that was asked for.
#[derive(Clone, Copy)]
pub struct UnknownByte(pub u8);
