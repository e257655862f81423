//! What the definitions of this crate come to in the words of others.
ghost use Rattle.rt_link.specs.Laws.{IsLawOfPairs, IsLawOfFarCalls, IsLawOfPlaces, IsLawOfPointers, IsLawOfSymbols};

/// Two words are those of a far call exactly where the code table of instructions has the one as AUIPC r and the other
/// as JALR with base r, where r isn't x0.
pub fn pairs()
    ensures { IsLawOfPairs }
{}

/// Where the relocations of an object have no fault, a link of a far call stands at two words of a section of code that
/// are those of a far call.
pub fn far_calls()
    ensures { IsLawOfFarCalls }
{}

/// Where the relocations of an object have no fault, a link stands at a multiple of 4 of a section of code, with a whole
/// word of it there.
pub fn places()
    ensures { IsLawOfPlaces }
{}

/// What stands at a place is about a symbol of the object.
pub fn symbols()
    ensures { IsLawOfSymbols }
{}

/// A pointer is about a symbol of the object.
pub fn pointers()
    ensures { IsLawOfPointers }
{}
