// How far from 1 the squared norm of a quaternion is that compose, inverse or normalize makes of accepted ones, and the sine and cosine of half its angle:
// laws alone, no code.
#![tactic(auto)]
