// How far one rounded operation may be from the exact one: laws alone, no code.
#![tactic(auto)]
