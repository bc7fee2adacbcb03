// The worked cases of document 01 as one proved list, and pins: no code.

#![tactic(auto)]
