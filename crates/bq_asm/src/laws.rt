//! Laws of assembly. Each law is a theorem over its definitions; the function of a law does nothing.
ghost use Rattle.bq_asm.specs.Laws.{ListingAssembles, TextHasOneProgram, TextHasOneFault, NoAssemblyIsFaulty, EachTextIsJudged, ProgramsAreWellFormed, OneName};

/// The listing of a program assembles to that program.
pub fn listing_assembles()
    ensures { ListingAssembles }
{}

/// A text stands for at most one list of instructions.
pub fn one_program()
    ensures { TextHasOneProgram }
{}

/// A text has at most one fault, with one line and one cause.
pub fn one_fault()
    ensures { TextHasOneFault }
{}

/// A text that stands for instructions has no fault.
pub fn no_program_is_faulty()
    ensures { NoAssemblyIsFaulty }
{}

/// Each text stands for instructions or has a fault.
pub fn each_text_is_judged()
    ensures { EachTextIsJudged }
{}

/// If a text stands for instructions, they are well formed, and their numbers fit the types of their fields.
pub fn programs_are_well_formed()
    ensures { ProgramsAreWellFormed }
{}

/// A first word that says a mnemonic is the name of the mnemonic, so no two words say the same mnemonic.
pub fn one_name()
    ensures { OneName }
{}
