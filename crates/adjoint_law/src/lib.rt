// The adjoint of a product of Galilean elements, in exact arithmetic. Laws alone, no code.
#![tactic(auto)]
