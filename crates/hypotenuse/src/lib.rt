// `hypot`: its definition in specs/, the theorem that it is correctly rounded in proofs/. No code.
#![tactic(auto)]
