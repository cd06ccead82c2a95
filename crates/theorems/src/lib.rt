// What the promise of `read` comes to, demand by demand: theorems in specs/Theorems.antt. No code.
#![tactic(auto)]
