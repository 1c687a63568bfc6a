// No functions: what a history is, its sources, write order, reasons and edges, what the chapter asks of a graph, and the theorems.
#![tactic(auto)]
