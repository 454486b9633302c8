//! What reads the input, by its form.
use crate::symbol_parts::SymbolParts;
use lr_forms::UnitForm;
use lr_frame::Hand;

#[derive(Drop)]
pub(crate) enum ReaderParts<H: Hand> {
    Symbols(SymbolParts<H>),
    /// Units are gathered in an array.
    Units(UnitForm),
}
