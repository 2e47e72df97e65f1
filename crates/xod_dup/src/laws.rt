//! What joined keys are good for, said once for all keys; nothing here runs.
ghost use Rattle.xod_dup.specs.Laws.{PairsComeBack, JoinedKeysRiseAsPairs, EqualLengthsSuffice, FrontsOfOneLengthKeepEnds, KeysOfValuesShowTheirEnds};

/// No two pairs have one joined key.
pub fn each_joined_key_is_one_pair()
    ensures { PairsComeBack }
{}

/// A walk over joined keys in rising order meets the keys in rising order, and the values of each in rising order.
pub fn joined_keys_are_in_the_order_of_pairs()
    ensures { JoinedKeysRiseAsPairs }
{}

/// Keys of one length, as those of numbers, show their ends.
pub fn keys_of_one_length()
    ensures { EqualLengthsSuffice }
{}

/// Fronts of one length before the keys change nothing.
pub fn keys_behind_fronts()
    ensures { FrontsOfOneLengthKeepEnds }
{}

/// The keys of values show their ends.
pub fn keys_of_values()
    ensures { KeysOfValuesShowTheirEnds }
{}
