//! Laws of what is read in the tables of rows; nothing here runs.
ghost use Rattle.xod_readings.specs.Laws.{EntitiesOfRowsAreRead, KeysAreBounds, LinksOfRowsAreRead, NamesOfRowsAreRead, PropsOfRowsAreRead};

/// Names and their numbers are read as the rows have them.
pub fn names_of_rows_are_read()
    ensures { NamesOfRowsAreRead }
{}

/// Entities and next numbers are read as the rows have them.
pub fn entities_of_rows_are_read()
    ensures { EntitiesOfRowsAreRead }
{}

/// Properties are read as the rows have them, and entities are found by exactly the keys of their values.
pub fn props_of_rows_are_read()
    ensures { PropsOfRowsAreRead }
{
    xod_dup::joined_keys_are_in_the_order_of_pairs();
}

/// Links are read as the rows have them, from both ends.
pub fn links_of_rows_are_read()
    ensures { LinksOfRowsAreRead }
{}

/// A value's key bounds a range of keys.
pub fn keys_are_bounds()
    ensures { KeysAreBounds }
{
    xod_base::no_key_begins_another();
}
