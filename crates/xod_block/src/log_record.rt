//! A record as its bytes lie in memory.

/// One record of a log. It borrows its parts and copies nothing.
///
/// `children` and `trees` are the bytes behind the count: for each link its byte and twelve bytes of address.
#[derive(Clone, Copy, Debug)]
pub enum LogRecord<'a> {
    /// One key and its value.
    Leaf {
        key: &'a [u8],
        value: &'a [u8],
    },
    /// Keys with a common front, which may be a key itself, and a child for each byte that comes next.
    Node {
        key: &'a [u8],
        value: Option<&'a [u8]>,
        children: &'a [u8],
    },
    /// The trees as they stand at a commit.
    Root {
        commit: u64,
        trees: &'a [u8],
    },
}
