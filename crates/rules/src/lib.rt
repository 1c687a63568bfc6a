// No functions: document 01's rules for the bytes of a log: its records, its table of refusals, its history, and what is answered of it.
#![tactic(auto)]
