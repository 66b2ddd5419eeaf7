//! What a session did, act by act. Sessions, trees, frames and places in bytes are counted from 0.

/// How a session ended. A place is that of the first byte in the session's file that wasn't taken.
#[derive(Clone, Copy, Debug, PartialEq, Eq)]
pub enum End {
    /// The whole input was taken.
    Whole,
    /// The input ends within a frame.
    Cut(u64),
    /// What stands there is no frame.
    Broken(u64),
    /// A frame there is too long.
    TooLong(u64),
    /// A read failed.
    ReadFault,
    /// A write failed.
    WriteFault,
    /// Memory was wanting.
    Memory,
}

/// One act of a session. Values are in whole currency units.
#[derive(Clone, Copy, Debug, PartialEq, Eq)]
pub enum Act {
    /// The session's post with this index in the tree, from 1.
    Post {
        tree: u32,
        index: u32,
        value: u64,
    },
    /// A read of the tree's root. Its place in the tree's history is after how many lines it stands.
    Read {
        tree: u32,
        stamp: u32,
        place: u32,
        value: u64,
    },
    /// The order of this frame was sent to the venue.
    Sent {
        frame: u32,
    },
    /// The order of this frame was refused, by the code of the refusal.
    Refused {
        frame: u32,
        code: u8,
        first: u32,
        second: u32,
    },
    /// Something about this frame was noted, by the code of the note.
    Noted {
        frame: u32,
        code: u8,
        first: u32,
        second: u32,
    },
    /// The session ended.
    Ended {
        end: End,
    },
}
