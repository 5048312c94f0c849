//! What holds of every table and every set message, as theorems: each contract states one, and its function does nothing.

ghost use Rattle.table.specs.Sets.{EveryTable, OneTable, OneAnswer};

/// Every table keeps distinct numbers, its limits, and no undefined member.
pub fn every_table_keeps()
    ensures { EveryTable }
{}

/// A table and a message leave one table.
pub fn one_table()
    ensures { OneTable }
{}

/// A table and a message have one answer.
pub fn one_answer()
    ensures { OneAnswer }
{}
