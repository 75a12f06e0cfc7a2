/// How the playing of a schedule ended.
#[derive(Clone, Copy)]
pub enum Status {
    /// The input was read to its end, and all was written.
    Ok,
    /// The line, from 1, is the first outside the form, or names what isn't there.
    BadLine { line: u64 },
    /// The source failed.
    ReadFault,
    /// The sink failed.
    WriteFault,
    /// There was no memory.
    Memory,
    /// A disk failed while its node started; the place is the disk's among those handed in.
    DiskFault { disk: u16 },
    /// A disk's bytes or records were refused at a start: the record's number, the first being 0.
    BadJournal { disk: u16, index: u64 },
    /// One settling would deliver more than 1,000,000 messages, or the schedule has more than
    /// 10,000,000 lines.
    Budget,
    /// The configuration is none.
    BadConf,
}
