//! Laws over the reading of bytes, which the clauses of these functions state. The calls do nothing.
ghost use Rattle.assembly_image.specs.Laws.{IsReadOrRefused, IsNotBoth, IsOneModule, IsOneFault};

/// Bytes are read as a module, or a check refuses them.
pub fn read_or_refused()
    ensures { IsReadOrRefused }
{}

/// Bytes that are read are not refused.
pub fn not_both()
    ensures { IsNotBoth }
{}

/// Bytes are read as one module.
pub fn one_module()
    ensures { IsOneModule }
{}

/// Bytes are refused for one check, which speaks of one place.
pub fn one_fault()
    ensures { IsOneFault }
{}
