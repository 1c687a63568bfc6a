// No functions: what the verdict answers of a log, the three demands of the tender as theorems about it, and the logs that document 01 marks.
#![tactic(auto)]
