//! What it is good for that lists rise, said once for all lists; nothing here runs.
ghost use Rattle.xod_sets.specs.Laws.{RisingListsRise, RisingPartsSuffice};

/// A list that was made rising rises, and one that rises is left as it is.
pub fn rising_lists_rise()
    ensures { RisingListsRise }
{}

/// Two lists may be made rising before they are joined, and the answer is the same.
pub fn rising_parts_suffice()
    ensures { RisingPartsSuffice }
{}
