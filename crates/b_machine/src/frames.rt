use b_frame::Frame as Values;

/// A method that runs in a domain (JVMS SE 8, 2.6). Methods and instructions go by their numbers.
#[derive(Drop)]
pub struct Frame {
    pub domain: u32,
    pub method: u32,
    /// The instruction that comes next.
    pub next: usize,
    pub values: Values,
}
