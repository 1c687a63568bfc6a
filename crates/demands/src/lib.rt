// The three demands of the tender, as the promises of two thin functions over the verdict and the graph: so the prover ties them to what
// those promise, and not to a copy of it. A caller that wants the answer alone calls these two themselves.
#![tactic(auto)]

ghost use Rattle.edges.specs.Promises.{GivesGraph};
ghost use Rattle.verdict.specs.Promises.{JudgesLog};
ghost use Rattle.answers.specs.Demands.{Demand1, Demand2, Demand3, GraphExactly};
ghost use Rattle.edges.specs.Numbers.{graph_says};
ghost use Rattle.verdict.specs.Numbers.{verdict_says};

use edges::graph::graph_of_log;
use format::record::TRANSACTIONS;
use refusals::refusal::Refusal;
use sets::Set;
use verdict::answer::Verdict;
use verdict::verdict;

// The verdict on any bytes, with any buffer: what it promises, and the three demands.
pub fn judged(log: &[u8], answer: &mut [u8]) -> Verdict
    ensures judges_log { JudgesLog log.now answer.old result answer.new }
    ensures demand1 { Demand1 log.now answer.old (verdict_says result) answer.new }
    ensures demand2 { Demand2 log.now answer.old (verdict_says result) answer.new }
    ensures demand3 { Demand3 log.now answer.old (verdict_says result) answer.new }
{
    verdict(log, answer)
}

// The graph of any bytes: what it promises, and demand 2.
pub fn graph(log: &[u8], table: &mut [Set; TRANSACTIONS]) -> Result<Set, Refusal>
    ensures gives_graph { GivesGraph log.now table.old result table.new }
    ensures graph_exactly { GraphExactly log.now table.old (graph_says result) table.new }
{
    graph_of_log(log, table)
}
