//! The limits of a store and of a script, each said once: definitions and code cite these constants.

/// The most names that a list of types, of properties or of links has.
pub const MOST_NAMES: usize = 4096;

/// The most bytes of a name.
pub const LONGEST_NAME: usize = 255;

/// The most bytes of a text property.
pub const LONGEST_TEXT: u64 = 1024;

/// How many local numbers a type has.
pub const MOST_LOCALS: u64 = 4294967296;

/// The most bytes of an input.
pub const INPUT_LIMIT: usize = 16777216;

/// The most sessions of an input.
pub const MOST_SESSIONS: usize = 64;

/// The most bytes of the name of a session or of a variable.
pub const LONGEST_SESSION_NAME: usize = 32;

/// The most tries of a `do` block.
pub const MOST_TRIES: u32 = 100;

/// The deepest nesting of a query.
pub const DEEPEST_QUERY: usize = 32;

/// The most parts of a query that have no parts themselves.
pub const MOST_PARTS: usize = 1024;
