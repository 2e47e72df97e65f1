//! A change of one key.

/// A key with the value that it is to have. Without a value the key is to go.
#[derive(Clone, Copy, Debug)]
pub struct Change<'a> {
    pub key: &'a [u8],
    pub value: Option<&'a [u8]>,
}
