// The composed time against the exact sum of the steps' times, over whole runs of compose calls and over the chain: laws alone, no code.
#![tactic(auto)]
