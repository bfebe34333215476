/// The bytes of a poke, of which there are 1 to 8. Those behind the first `len` are 0.
#[derive(Clone, Copy, Debug, PartialEq, Eq)]
pub struct PokeBytes {
    pub len: u8,
    pub bytes: [u8; 8],
}

/// What may happen next: the running job makes a step, a counter ticks, or device bytes change.
#[derive(Clone, Copy, Debug, PartialEq, Eq)]
pub enum Move {
    Run,
    Tick(u32),
    Poke { at: u32, bytes: PokeBytes },
}
