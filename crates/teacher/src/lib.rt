// Which fret a note at the end of a tie has: definitions in specs/, the theorems over every file that is read in proofs/. No code.
#![tactic(auto)]
