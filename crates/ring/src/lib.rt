// Commutative rings: a normaliser of expressions, with its soundness. Laws alone, no code.
#![tactic(auto)]
