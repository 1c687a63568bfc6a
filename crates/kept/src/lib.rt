// What the check keeps of the records that it has passed, so that a record costs the same wherever it stands.
#![tactic(auto)]

ghost use Rattle.std.specs.Prelude.{◌≡◌, true, ◌+◌, ℕ, List};
ghost use Rattle.rules.specs.Record.{is_read, records};
ghost use Rattle.rules.specs.Refusals.{read_rows, history_rows, end_rows};
ghost use Rattle.rules.specs.Rows.{answer_of};
ghost use Rattle.rules.specs.LogHistory.{history_of};
ghost use Rattle.refusals.specs.Numbers.{checked_says};
ghost use Rattle.kept.specs.Kept.{KeptCopies, KeptItems, KeptCommits, KeptNames, KeptBefore};

use format::kind::Kind;
use format::record::{Copy, Record, TRANSACTIONS};
use refusals::refusal::Refusal;
use sets::Set;

// For each copy and each item the set of its writers, the transactions that are named with the first record of each, and those that
// have committed. Each is kept for itself: a question asks that those are right at which it looks, so whoever has only these may ask it.
#[derive(Drop)]
pub struct Kept {
    pub copy_writers: [Set; Copy::COPIES],
    pub item_writers: [Set; Copy::ITEMS],
    pub named: Set,
    pub firsts: [usize; TRANSACTIONS],
    pub committed: Set,
}

impl Kept {
    // What is kept before the first record: nothing, whatever the log.
    pub fn new() -> Kept
        ensures { (log : List ℕ) → KeptBefore log 0 result }
    {
        Kept {
            copy_writers: [Set::EMPTY; Copy::COPIES],
            item_writers: [Set::EMPTY; Copy::ITEMS],
            named: Set::EMPTY,
            firsts: [0; TRANSACTIONS],
            committed: Set::EMPTY,
        }
    }

    // Numbers 6 to 8 at a record, which is of right form.
    #[tactic(auto, using(crate::proofs::TestsKept::refuses_6, crate::proofs::TestsKept::not_6, rules::proofs::Table::other_passes))]
    pub fn history_answer(&self, r: &Record<'_>) -> Result<(), Refusal>
        requires copies { KeptCopies r.now.log r.now.place self.now.copy_writers }
        requires items { KeptItems r.now.log r.now.place self.now.item_writers }
        requires commits { KeptCommits r.now.log r.now.place self.now.committed }
        ensures { checked_says result ≡ answer_of (history_rows (history_of r.now.log) r.now.place) }
    {
        if self.committed.has(r.transaction()) {
            return Err(Refusal::AfterCommit(r.place()));
        }
        if r.is(Kind::Read) {
            return self.read_answer(r);
        }
        Ok(())
    }

    // Numbers 7 and 8 at a read.
    #[tactic(auto, using(crate::proofs::TestsKept::refuses_7, crate::proofs::TestsKept::refuses_8, crate::proofs::TestsKept::passes_own, crate::proofs::TestsKept::passes_others))]
    fn read_answer(&self, r: &Record<'_>) -> Result<(), Refusal>
        requires reads { is_read r.now.log r.now.place ≡ true }
        requires copies { KeptCopies r.now.log r.now.place self.now.copy_writers }
        requires items { KeptItems r.now.log r.now.place self.now.item_writers }
        ensures { checked_says result ≡ answer_of (read_rows (history_of r.now.log) r.now.place) }
    {
        let t = r.transaction();
        let writers = self.copy_writers[r.copy()];
        if writers == Set::EMPTY {
            return Err(Refusal::ReadsUnwritten(r.place()));
        }
        if self.item_writers[r.item()].has(t) && !writers.has(t) {
            return Err(Refusal::ReadsPastOwn(r.place()));
        }
        Ok(())
    }

    // Keeps a record: each of the four that was right of the records before it is right with it. Its kind comes first, since numbers 7 and 8
    // have just asked for the same: a branch is foretold better right behind one that asks the same.
    pub fn keep(&mut self, r: &Record<'_>)
        ensures copies { KeptCopies r.now.log r.now.place self.old.copy_writers
            → KeptCopies r.now.log (r.now.place + 1) self.new.copy_writers }
        ensures items { KeptItems r.now.log r.now.place self.old.item_writers
            → KeptItems r.now.log (r.now.place + 1) self.new.item_writers }
        ensures names { KeptNames r.now.log r.now.place self.old.named self.old.firsts
            → KeptNames r.now.log (r.now.place + 1) self.new.named self.new.firsts }
        ensures commits { KeptCommits r.now.log r.now.place self.old.committed
            → KeptCommits r.now.log (r.now.place + 1) self.new.committed }
    {
        let t = r.transaction();
        if r.is(Kind::Write) {
            let c = r.copy();
            self.copy_writers[c] = self.copy_writers[c].with(t);
            let x = r.item();
            self.item_writers[x] = self.item_writers[x].with(t);
        } else if r.is(Kind::Commit) {
            self.committed = self.committed.with(t);
        }
        if !self.named.has(t) {
            self.named = self.named.with(t);
            self.firsts[t] = r.place();
        }
    }

    // Number 9, where what is kept is that of a whole log: the lowest-numbered transaction that is named and has not committed.
    #[tactic(auto, using(crate::proofs::EndKept::next_there))]
    pub fn end_answer(&self) -> Result<(), Refusal>
        ensures { (log : List ℕ) → KeptNames log (records log) self.now.named self.now.firsts
            → KeptCommits log (records log) self.now.committed → checked_says result ≡ answer_of (end_rows log) }
    {
        match self.named.minus(self.committed).next_from(0) {
            Some(t) => Err(Refusal::NeverCommits(self.firsts[t])),
            None => Ok(()),
        }
    }
}
