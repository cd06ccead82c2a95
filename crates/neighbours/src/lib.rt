// What document 01 says of neighbours, over the finished tables: definitions in specs/, the laws that they are what is made in proofs/. No code.
#![tactic(auto)]
