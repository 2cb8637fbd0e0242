//! Numbers of entries.

/// The number of an entry of a list, such as a slot, or `NO_SLOT` for none.
#[derive(Clone, Copy, Debug, PartialEq, Eq)]
pub struct Link {
    pub number: u32,
}

impl Link {
    /// The link to no entry.
    pub const NONE: Link = Link { number: NO_SLOT };
}

/// The number that means no entry.
pub const NO_SLOT: u32 = 4294967295;

/// What stands above the first entry of a list is this and the list's number. The numbers of entries are below it.
pub const TAG: u32 = 4261412864;
