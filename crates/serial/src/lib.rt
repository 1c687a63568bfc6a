// No functions: runs of a line of transactions on a single copy, serial lines, last writes, and that document 01's rule explains every sound history.
#![tactic(auto)]
