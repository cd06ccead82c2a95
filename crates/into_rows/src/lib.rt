// The rows of a beat, entered in lent tables of words with their members and curve points.
#![tactic(auto)]

pub mod keep; // a row, entered with its members and its curve
mod members; // members, and the ties that start on those before them
mod points; // the curve of a bend
mod rows; // the entry of a row, and what it does to the rows before it
pub mod plain; // the row of a beat of plain notes
