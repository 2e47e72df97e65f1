//! What always holds of the names of types; nothing here runs.
ghost use Rattle.xod_cache.specs.Laws.{KindsFollow};

/// Changes that fit rows make of their type names those of the rows with the changes.
pub fn kinds_follow()
    ensures { KindsFollow }
{}
