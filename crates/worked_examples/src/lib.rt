// The bench list's proved lines, as one list: laws alone, no code.
#![tactic(auto)]
