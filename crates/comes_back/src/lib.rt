// What compose, inverse and the chain answer is accepted when it is handed in again, and what log and minus read of accepted blocks: laws alone, no code.
#![tactic(auto)]
