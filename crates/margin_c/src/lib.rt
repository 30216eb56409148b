// The margin in true distance of what the functions for C write: its statement in specs/, the theorem in proofs/. No code.
#![tactic(auto)]
