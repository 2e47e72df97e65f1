//! What the keys of values are good for, said once for all values; nothing here runs.
ghost use Rattle.xod_base.specs.Laws.{KeysRiseAsValues, EachKeyShowsItsEnd, KeysAreReadBack, OneKeyIsRead};

/// A walk over keys in rising order meets the values in rising order.
pub fn keys_are_in_the_order_of_values()
    ensures { KeysRiseAsValues }
{}

/// Where keys stand one behind the other or before other bytes, each shows where it ends.
pub fn no_key_begins_another()
    ensures { EachKeyShowsItsEnd }
{}

/// The key of a value is read back as the folded value, and no bytes are read in two ways.
pub fn keys_are_read_back()
    ensures read_back { KeysAreReadBack }
    ensures only_one { OneKeyIsRead }
{}
