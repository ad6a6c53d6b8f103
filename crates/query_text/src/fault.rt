//! Why a session ends before its input does.

/// Why a session ended before its input did.
#[derive(Clone, Copy)]
pub enum SessionFault {
    /// The input failed.
    ReadFault,
    /// The output failed.
    WriteFault,
    /// A line has more than 65,536 bytes.
    LineTooLong,
    /// 4,294,967,296 bytes were taken. A session takes no more.
    InputTooLong,
    /// A look-up was refused memory.
    NoMemory,
}
