// Each operation on the words of a table shows the operation on its entries. Laws in specs/; no code.
#![tactic(auto)]
