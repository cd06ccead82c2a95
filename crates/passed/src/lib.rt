// Document 01, "Bytes passed over", item by item, in proofs/. No code.
#![tactic(auto)]
