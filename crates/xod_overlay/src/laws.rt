//! What a tree with touched keys is, said once for all trees; nothing here runs.
ghost use Rattle.xod_overlay.specs.Laws.{TouchedKeysDecide, UntouchedIsBelow, PutsShow, RemovalsShow, WalksBegin, WalksGoOn};

/// A touched key has its mark, and any other key has what stands below.
pub fn touched_keys_decide()
    ensures { TouchedKeysDecide }
{}

/// Without touched keys a tree is the one below.
pub fn untouched_trees_are_those_below()
    ensures { UntouchedIsBelow }
{}

/// To touch a key with a value is to put it into the tree that is seen.
pub fn puts_show()
    ensures { PutsShow }
{}

/// To touch a key with a removal mark is to remove it from the tree that is seen.
pub fn removals_show()
    ensures { RemovalsShow }
{}

/// A walk that begins at the least touch of a tree, and goes on from each key to the least one above it, meets all its
/// touches, each once and by rising key.
pub fn walks_meet_all_touches()
    ensures begin { WalksBegin }
    ensures go_on { WalksGoOn }
{}
