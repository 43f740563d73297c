// What follows from the definitions of a store and of what an image holds.
ghost use Rattle.pp_store.specs.Law.{StoresHoldAll, StoresAreSound};

/// What an import leaves is read back as holding every chunk, and its gates tell the truth. It does nothing.
pub fn laws_of_stores()
    ensures hold { StoresHoldAll }
    ensures sound { StoresAreSound }
{}
