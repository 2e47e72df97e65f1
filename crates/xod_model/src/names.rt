//! Lists of names in order of first use, and the next number of each type.
ghost use Rattle.std.specs.Prelude.{◌≡◌, ◌+◌, ◌<◌, ◌≤◌, length, vec_len, vec_capacity, IfSome};
ghost use Rattle.xod_base.specs.Rows.{next_of as next_number, number_of as place_of};
ghost use Rattle.xod_journal.specs.Changes.{has_room as room_test, kind_number as number_of_kind, with_name, with_next};

use xod_base::{MOST_NAMES, Text};

/// The place of a name in a list.
pub fn number_of(names: &[Text], name: &Text) -> Option<usize>
    ensures place { result ≡ place_of names.now name.now }
    ensures within { IfSome result (λ n. n < length names.now) }
{
    for (i, first) in names.iter().enumerate() {
        if first.same(name) {
            return Some(i);
        }
    }
    None
}

/// Whether a list has a name, or room for it.
pub fn has_room(names: &[Text], name: &Text) -> bool
    ensures { result ≡ room_test names.now name.now }
{
    number_of(names, name).is_some() || names.len() < MOST_NAMES
}

/// The number of a type: its place in the list, and the list's end for a new one.
pub fn kind_number(types: &[Text], kind: &Text) -> u32
    requires { length types.now ≤ MOST_NAMES }
    ensures { result ≡ number_of_kind types.now kind.now }
{
    number_of(types, kind).unwrap_or(types.len()) as u32
}

/// The next local number of a type, 0 where there is no such type.
pub fn next_of(nexts: &[u64], kind: u32) -> u64
    ensures { result ≡ next_number nexts.now kind }
{
    nexts.get(kind as usize).copied().unwrap_or(0)
}

/// Puts a new name at the end of a list that has room for it.
pub fn add_name(names: &mut Vec<Text>, name: Text)
    requires { vec_len names.old < vec_capacity names.old }
    ensures { names.new.items ≡ with_name names.old.items name }
{
    if number_of(names, &name).is_none() {
        names.push(name).unwrap();
    }
}

/// Sets the next number of a type, which may be the first one past a list that has room for it.
pub fn set_next(nexts: &mut Vec<u64>, kind: u32, next: u64)
    requires { vec_len nexts.old < vec_capacity nexts.old }
    ensures { nexts.new.items ≡ with_next nexts.old.items kind next }
{
    if (kind as usize) < nexts.len() {
        nexts[kind as usize] = next;
    } else {
        nexts.push(next).unwrap();
    }
}
