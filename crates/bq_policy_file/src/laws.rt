//! Laws of what is answered. Each is a theorem over its definitions, and its function does nothing.
ghost use Rattle.bq_policy_file.specs.Laws.{OneAssembly, OneListing, OnePolicyAnswer};
ghost use Rattle.bq_policy_file.specs.ReadBack.{ListingIsReadBack};

/// `asm` does not both accept and refuse an input, and writes one text for it.
pub fn one_assembly()
    ensures { OneAssembly }
{}

/// `dis` does not both accept and refuse a text, and writes one text for it.
pub fn one_listing()
    ensures { OneListing }
{}

/// A file with a fault is no policy and has no other fault, unless memory runs out.
pub fn one_policy_answer()
    ensures { OnePolicyAnswer }
{}

/// What is written of a policy, with slots and bytes beside its instructions or without, is a file that is read as that
/// policy, and as no other.
pub fn listing_is_read_back()
    ensures { ListingIsReadBack }
{}
