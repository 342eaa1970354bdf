//! Laws of the spelling.
ghost use Rattle.bq_insn.specs.Laws.{OneSpelling, OneProgram, OneTable};
ghost use Rattle.bq_insn.specs.Faults.{NoProgramIsFaulty, NoProgramIsRefused, BytesHaveOneFault};

/// If bytes begin with the spellings of two instructions, both are the same instruction.
pub fn one_spelling()
    ensures { OneSpelling }
{}

/// Bytes spell at most one program, so encoding a program and decoding the bytes gives the program back.
pub fn one_program()
    ensures { OneProgram }
{}

/// No instruction in the bytes of a program is faulty.
pub fn no_program_is_faulty()
    ensures { NoProgramIsFaulty }
{}

/// The bytes of a program have no fault, of length or of an instruction, so they are refused only if memory runs out.
pub fn no_program_is_refused()
    ensures { NoProgramIsRefused }
{}

/// Bytes have at most one fault: one slot and one cause.
pub fn one_fault()
    ensures { BytesHaveOneFault }
{}

/// The table of opcodes says the same whether you read it from the opcode or from the form.
pub fn one_table()
    ensures { OneTable }
{}
