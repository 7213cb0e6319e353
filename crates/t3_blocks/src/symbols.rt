//! The symbols: data holders and the names that they go by.
ghost use Rattle.std.specs.Prelude.{◌≡◌, ◌++◌, codes, MatchOption};
ghost use Rattle.t3_blocks.specs.Spelling.{symbol_text, IsSymbol};
ghost use Rattle.t3_blocks.specs.Malformed.{BeginsWithItem};
ghost use Rattle.t3_blocks.specs.Parsing.{Gives};

use crate::block::Block;
use crate::items::{Symbol, Symbols};
use crate::layout::{Layout, take_counted};
use crate::parts::{append_bytes, append_name};
use crate::refusal::PayloadRefusal;
use crate::split::{RAW_SIZE, split_name, split_raw};
use std::alloc::Global;
use t3_holder::{Bytes, NoMemory, Raw, raw_bytes};

/// Each item is a data holder and a length-prefixed name.
#[derive(Clone, Copy)]
pub(crate) struct SymbolLayout;

impl Layout for SymbolLayout {
    ghost use Rattle.t3_blocks.specs.Spelling.{symbol_text, IsSymbol};

    type Item = Symbol;

    ghost text = { λ _. symbol_text };

    ghost fits = { λ _. IsSymbol };

    fn take<'a>(
        &self,
        alloc: Global,
        bytes: &'a [u8],
    ) -> Result<Option<(Symbol, &'a [u8])>, NoMemory> {
        match split_symbol(bytes) {
            Some((raw, name, trailing)) => {
                let name = Bytes(Vec::from_slice(alloc, name)?);
                Ok(Some((Symbol { raw, name }, trailing)))
            }
            None => Ok(None),
        }
    }

    fn append(&self, symbol: &Symbol, out: &mut Vec<u8>) -> Result<(), NoMemory> {
        append_bytes(&raw_bytes(symbol.raw), out)?;
        append_name(&symbol.name.0, out)
    }

    #[tactic(auto, using(crate::proofs::Sizes::length_symbol_text))]
    fn size(&self, symbol: &Symbol) -> usize {
        RAW_SIZE + 1 + symbol.name.0.len()
    }
}

/// A payload of `SYMD`: a count, and so many symbols.
pub(crate) fn symbols(alloc: Global, payload: &[u8]) -> Result<Block, PayloadRefusal>
    ensures { Gives (codes "SYMD") payload.now result }
{
    let symbols = Symbols(take_counted(alloc, &SymbolLayout, payload)?);
    Ok(Block::Symbols { symbols })
}

/// A data holder and a name, and what follows them.
fn split_symbol(bytes: &[u8]) -> Option<(Raw, &[u8], &[u8])>
    ensures { MatchOption result (¬ BeginsWithItem symbol_text IsSymbol bytes.now)
        (λ parts. IsSymbol (record { raw = parts.0; name = parts.1.now })
        × (bytes.now ≡ symbol_text (record { raw = parts.0; name = parts.1.now }) ++ parts.2.now)) }
{
    let (raw, rest) = split_raw(bytes)?;
    let (name, trailing) = split_name(rest)?;
    Some((raw, name, trailing))
}
