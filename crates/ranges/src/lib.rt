// Where the bytes of rows stand in the file (document 02, f): definitions in specs/, the laws in proofs/. No code.
#![tactic(auto)]
