// Document 01 as definitions: no code.

#![tactic(auto)]
