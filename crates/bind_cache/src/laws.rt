//! What follows from the definitions alone.
ghost use Rattle.bind_cache.specs.Bindings.{ChangesOneName};

/// A law over bindings, which its clause states: a publication changes what is bound to its context
/// and name, where nothing was, and nothing else. The call does nothing.
pub fn a_publication_changes_one_name()
    ensures { ChangesOneName }
{}
