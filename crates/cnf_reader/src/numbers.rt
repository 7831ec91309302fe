//! The numbers of the symbols of the clauses that are kept.

ghost use Rattle.std.specs.Prelude.{◌≡◌, ◌+◌, ◌<◌, ◌≤◌, length, IfOk, IsTrue, map};
ghost use Rattle.std.specs.List.{list_all};
ghost use Rattle.cnf_grammar.specs.Meaning.{symbol_item};
ghost use Rattle.cnf_grammar.specs.Soundness.{item_suits, literal_suits};
ghost use Rattle.cnf_reader.specs.Drafts.{symbol_seen, item_seen, literal_seen};
ghost use Rattle.cnf_reader.specs.Keeping as keeping;
ghost use Rattle.cnf_reader.specs.Sound.{atom_of, count_items};
ghost use Rattle.mg_word.specs.Facts.{is_name_byte};
ghost use Rattle.mg_word.specs.Table.{symbol_of};

use crate::draft::{RawItem, RawLiteral, RawSymbol};
use crate::text::text_of;
use mg_word::{ClauseLit, Item, Kind, NoMemory, PatLit, Pattern, Symbols};
use std::alloc::Global;
use std::str::from_utf8;

/// The number of the symbol with this name, which goes last where it is new.
pub fn intern(symbols: &mut Symbols, name: &[u8], arity: u32, kind: Kind) -> Result<u32, NoMemory>
    requires few { length symbols.old < 4294967295 }
    requires ascii { IsTrue (list_all is_name_byte name.now) }
    ensures { IfOk result (λ id. (id ≡ keeping.number_in symbols.old (symbol_of name.now arity kind)) × (symbols.new ≡ keeping.with_symbol symbols.old (symbol_of name.now arity kind))) }
{
    let Ok(name) = from_utf8(name) else {
        unreachable!()
    };
    let id = symbols.intern(name, arity, kind)?;
    let _count = symbols.len();
    Ok(id)
}

// The number of the symbol.
fn number_symbol(alloc: Global, symbols: &mut Symbols, symbol: &RawSymbol) -> Result<u32, NoMemory>
    requires few { length symbols.old < 4294967295 }
    requires right { IsTrue (item_suits (symbol_item (symbol_seen symbol.now))) }
    ensures { IfOk result (λ id. (id ≡ keeping.number_in symbols.old (keeping.entry_of (symbol_seen symbol.now))) × (symbols.new ≡ keeping.with_symbol symbols.old (keeping.entry_of (symbol_seen symbol.now)))) }
{
    if symbol.quoted {
        let name = text_of(alloc, true, symbol.text)?;
        return intern(symbols, &name, symbol.arity, symbol.kind);
    }
    intern(symbols, symbol.text, symbol.arity, symbol.kind)
}

// The item with the number of its symbol.
fn number_item(alloc: Global, symbols: &mut Symbols, item: &RawItem) -> Result<Item, NoMemory>
    requires few { length symbols.old < 4294967295 }
    requires right { IsTrue (item_suits (item_seen item.now)) }
    ensures { IfOk result (λ made. (made ≡ keeping.numbered_item symbols.old (item_seen item.now)) × (symbols.new ≡ keeping.with_item symbols.old (item_seen item.now))) }
{
    match item {
        RawItem::Symbol(symbol) => {
            let id = number_symbol(alloc, symbols, symbol)?;
            Ok(Item::Sym(id))
        }
        RawItem::Variable(index) => Ok(Item::Var(*index)),
    }
}

// The items with the numbers of their symbols.
fn number_items(
    alloc: Global,
    symbols: &mut Symbols,
    items: &[RawItem],
) -> Result<Vec<Item>, NoMemory>
    requires room { length symbols.old + length items.now ≤ 4294967295 }
    requires right { IsTrue (list_all item_suits (map item_seen items.now)) }
    ensures { IfOk result (λ made. (made.items ≡ keeping.numbered_items symbols.old (map item_seen items.now)) × (symbols.new ≡ keeping.with_items symbols.old (map item_seen items.now))) }
{
    let mut made = Vec::with_capacity(alloc, items.len())?;
    for item in items {
        made.push(number_item(alloc, symbols, item)?)?;
    }
    Ok(made)
}

// The literal with the numbers of its symbols.
fn number_literal(
    alloc: Global,
    symbols: &mut Symbols,
    literal: &RawLiteral,
) -> Result<ClauseLit, NoMemory>
    requires room { length symbols.old + length (atom_of (literal_seen literal.now)) ≤ 4294967295 }
    requires right { IsTrue (literal_suits (literal_seen literal.now)) }
    ensures { IfOk result (λ made. (made ≡ keeping.numbered_literal symbols.old (literal_seen literal.now)) × (symbols.new ≡ keeping.with_literal symbols.old (literal_seen literal.now))) }
{
    match literal {
        RawLiteral::Always => Ok(ClauseLit::True),
        RawLiteral::Never => Ok(ClauseLit::False),
        RawLiteral::Signed(negative, atom) => {
            let items = number_items(alloc, symbols, atom)?;
            Ok(ClauseLit::Lit(PatLit {
                negative: *negative,
                pattern: Pattern::new(items),
            }))
        }
    }
}

/// The literals with the numbers of their symbols, which go last where they are new.
pub fn number_literals(
    alloc: Global,
    symbols: &mut Symbols,
    literals: &[RawLiteral],
) -> Result<Vec<ClauseLit>, NoMemory>
    requires room { length symbols.old + count_items (map literal_seen literals.now) ≤ 4294967295 }
    requires right { IsTrue (list_all literal_suits (map literal_seen literals.now)) }
    ensures { IfOk result (λ made. (made.items ≡ keeping.numbered_literals symbols.old (map literal_seen literals.now)) × (symbols.new ≡ keeping.with_literals symbols.old (map literal_seen literals.now))) }
{
    let mut made = Vec::with_capacity(alloc, literals.len())?;
    for literal in literals {
        made.push(number_literal(alloc, symbols, literal)?)?;
    }
    Ok(made)
}
