// The published formulas over any arithmetic, and their group law in exact arithmetic. Laws alone, no code.
#![tactic(auto)]
