//! Symbols: what has a name in an object file.
ghost use Rattle.std.specs.Prelude.{◌≡◌, ◌<◌, ◌+◌, ◌*◌, ◌↔◌, IsTrue, length, IfSome, IfNone};
ghost use Rattle.bq_object.specs.declared.symbol.Symbol.{Symbol as SymbolValue};
ghost use Rattle.bq_object.specs.Symbols.{HasNoPolicy, IsFirstPolicy, IsFunctionSymbol, IsPolicySymbol, IsSymbol, symbol_of};

use crate::numbers::{half, part, wide, word};

/// What an entry of a table of symbols says.
#[derive(Clone, Copy)]
pub struct Symbol {
    /// Where its name begins among the names.
    pub name: u32,
    /// What kind of symbol it is, in the low four bits: `FUNCTION` is a function.
    pub kind: u8,
    /// The number of the section that has it; 0 if no section does.
    pub section: u16,
    /// Where in the section it begins.
    pub at: u64,
    /// How many bytes it has.
    pub long: u64,
}

/// The length of an entry of a table of symbols: `Elf64_Sym` (System V ABI, "Object Files": ELF64).
pub(crate) const SYMBOL_LENGTH: u64 = 24;
/// The kind of a function, in the low four bits of `st_info`: `STT_FUNC`.
const FUNCTION: u8 = 2;

impl Symbol {
    /// What the 24 bytes of an entry say.
    fn read(entry: &[u8]) -> Symbol
        requires { length entry.now ≡ 24 }
        ensures { result ≡ symbol_of entry.now }
    {
        Symbol {
            name: word(entry, 0),
            kind: entry[4],
            section: half(entry, 6),
            at: wide(entry, 8),
            long: wide(entry, 16),
        }
    }

    /// Tells whether the symbol is a function that a section of this file has.
    pub fn is_function(self) -> bool
        ensures { IsTrue result ↔ IsFunctionSymbol self }
    {
        self.kind % 16 == FUNCTION && self.section != 0
    }

    /// Tells whether the symbol is the function `policy` of this file.
    pub fn is_policy(self, names: &[u8]) -> bool
        ensures { IsTrue result ↔ IsPolicySymbol names.now self }
    {
        let Some(name) = part(names, u64::from(self.name), 7) else {
            return false;
        };
        self.is_function() && name == b"policy\0".as_slice()
    }
}

/// The symbol of that number, if there are that many.
pub fn symbol_at(entries: &[u8], index: u64) -> Option<Symbol>
    ensures some { IfSome result (IsSymbol entries.now index) }
    ensures none { IfNone result (length entries.now < index * 24 + 24) }
{
    let entry = part(entries, index.checked_mul(SYMBOL_LENGTH)?, SYMBOL_LENGTH)?;
    Some(Symbol::read(entry))
}

/// The symbol of that number, if it is the function `policy`.
#[tactic(auto, using(crate::proofs::SameLemmas::other_symbol, crate::proofs::SameLemmas::no_symbol))]
fn policy_at(entries: &[u8], names: &[u8], index: u64) -> Option<Symbol>
    ensures some { IfSome result (λ symbol. IsSymbol entries.now index symbol × IsPolicySymbol names.now symbol) }
    ensures none { IfNone result ((other : SymbolValue) → IsSymbol entries.now index other → IsPolicySymbol names.now other → ⊥) }
{
    let symbol = symbol_at(entries, index)?;
    if symbol.is_policy(names) {
        Some(symbol)
    } else {
        None
    }
}

/// The first symbol that is the function `policy`.
pub fn policy_in(entries: &[u8], names: &[u8]) -> Option<Symbol>
    ensures some { IfSome result (IsFirstPolicy entries.now names.now) }
    ensures none { IfNone result (HasNoPolicy entries.now names.now) }
{
    let count = entries.len() as u64 / SYMBOL_LENGTH;
    for index in 0..count {
        if let Some(symbol) = policy_at(entries, names, index) {
            return Some(symbol);
        }
    }
    None
}

/// The longest name that is read.
const LONGEST: usize = 256;

/// The name that begins there, up to the 0 that ends it. A longer name is cut after 256 bytes.
pub fn name_at(names: &[u8], at: u32) -> &[u8] {
    let from = (at as usize).min(names.len());
    let rest = &names[from..];
    let most = rest.len().min(LONGEST);
    let mut long = 0;
    while long < most && rest[long] != 0 {
        long += 1;
    }
    &rest[..long]
}
