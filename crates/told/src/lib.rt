// What a file tells, before anything is made of it: definitions in specs/, the law that every reading is made of it in proofs/. No code.
#![tactic(auto)]
