//! Laws of sheets: each function does nothing, and its contract is the law.

ghost use Rattle.cell_store.specs.Laws.{TablesByItems};

/// A sheet is its size and the items at its places.
pub fn tables_by_items<T>()
    ensures { TablesByItems T }
{}
