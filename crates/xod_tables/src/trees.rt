//! The numbers of the trees that hold a store's rows.

/// The name with each number.
pub const NAMES: u8 = 1;

/// The number of each name.
pub const NUMBERS: u8 = 2;

/// Each type's next local number.
pub const NEXT: u8 = 3;

/// The entities that are there.
pub const ENTITIES: u8 = 4;

/// The values of properties.
pub const PROPERTIES: u8 = 5;

/// The keys of values, by which entities are found.
pub const INDEX: u8 = 6;

/// The links, by their sources.
pub const LINKS: u8 = 7;

/// The links, by their targets.
pub const BACK: u8 = 8;
