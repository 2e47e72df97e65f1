//! The worked store of one entity, byte for byte.

/// The block of a store with one entity without properties, which is its whole body: 115 bytes in five records.
pub const ONE_ENTITY: [u8; 115] = [
    1, 0, 5, 1, 0, 0, 0, 0, 0, 1, 84, // tree 1: type 0 is T
    1, 0, 2, 1, 84, 0, 4, 0, 0, 0, 0, // tree 2: T is 0
    1, 0, 4, 0, 0, 0, 0, 0, 8, 0, 0, 0, 0, 0, 0, 0, 1, // tree 3: the next number is 1
    1, 0, 8, 0, 0, 0, 0, 0, 0, 0, 0, 0, 0, // tree 4: entity 0-0
    3, 1, 0, 0, 0, 0, 0, 0, 0, 1, 4, // a root of commit 1 with four trees
    1, 0, 0, 0, 0, 0, 0, 0, 0, 0, 0, 0, 0, //
    2, 0, 0, 0, 0, 0, 0, 0, 0, 0, 0, 0, 11, //
    3, 0, 0, 0, 0, 0, 0, 0, 0, 0, 0, 0, 22, //
    4, 0, 0, 0, 0, 0, 0, 0, 0, 0, 0, 0, 39, //
];

/// The mark of that block, whose root takes the last 63 bytes, and the closed one behind it.
pub const SEALED: [u8; 26] = [
    0, 0, 0, 0, 0, 0, 0, 115, 0, 0, 0, 63, 1, //
    0, 0, 0, 0, 0, 0, 0, 0, 0, 0, 0, 0, 0,
];
