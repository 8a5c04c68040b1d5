// A mark that is held for a block.
#[derive(Clone, Copy, Default)]
pub struct Record {
    pub block: usize,
    pub mark: u32,
}
