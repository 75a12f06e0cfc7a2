/// Why a node doesn't start.
#[derive(Clone, Copy)]
pub enum NodeErr {
    /// A call of its disk failed; the disk's count of faults has risen.
    DiskFault,
    /// The number, the first being 0, of the record at fault: it can't be read, or it can't follow
    /// those before it. Where the file's header or a frame is at fault, how many whole frames stand
    /// in front; where no boot is left, how many records there are.
    BadJournal { index: u64 },
    /// There was no memory.
    Memory,
}
