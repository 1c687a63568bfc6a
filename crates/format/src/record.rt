// What a log is made of: records of four bytes, and the copies that they name.
ghost use Rattle.std.specs.Prelude.{◌≡◌, ◌*◌, ◌<◌};
ghost use Rattle.rules.specs.Record.{transactions, items, sites, kind, transaction, item, site, records, copy_number, copy_of, Within};
ghost use Rattle.format.specs.Kind.{is_of};

use crate::kind::Kind;
use std::marker::Model;

// A record's bytes: kind, transaction, item, site.
pub const RECORD_BYTES: usize = 4;

pub const MOST_RECORDS: usize = 4096;

pub const MOST_BYTES: usize = MOST_RECORDS * RECORD_BYTES;

pub const TRANSACTIONS: usize = 64;

pub const LAST_TRANSACTION: u8 = (TRANSACTIONS - 1) as u8;

// A copy is an item at a site, each within its limit.
#[derive(Clone, Copy, Debug, PartialEq, Eq)]
pub struct Copy {
    pub item: u8,
    pub site: u8,
}

impl Copy {
    pub const ITEMS: usize = 64;

    pub const SITES: usize = 16;

    pub const LAST_ITEM: u8 = (Copy::ITEMS - 1) as u8;

    pub const LAST_SITE: u8 = (Copy::SITES - 1) as u8;
    // How many copies there are: their numbers are below this.
    pub const COPIES: usize = Copy::ITEMS * Copy::SITES;

    pub fn new(item: u8, site: u8) -> Copy
        requires { (item < items) × (site < sites) }
        ensures { (result.item ≡ item) × (result.site ≡ site) }
    {
        Copy { item, site }
    }

    // Its number. No two copies have the same.
    pub fn number(self) -> usize
        requires { (self.item < items) × (self.site < sites) }
        ensures { (result ≡ copy_number self.item self.site) × (result < items * sites) }
    {
        usize::from(self.item) * Copy::SITES + usize::from(self.site)
    }
}

// The four bytes of a record, as they stand in the log.
#[derive(Clone, Copy, Debug, PartialEq, Eq)]
pub struct RecordBytes {
    pub kind: u8,
    pub transaction: u8,
    pub item: u8,
    pub site: u8,
}

// How many whole records the log has.
#[tactic(auto, unfolding(rules::specs::Record::records))]
pub fn record_count(log: &[u8]) -> usize
    ensures { result ≡ records log.now }
{
    log.len() / RECORD_BYTES
}

// The bytes of the record at place k.
#[tactic(auto, unfolding(rules::specs::Record::records, rules::specs::Record::kind, rules::specs::Record::transaction, rules::specs::Record::item, rules::specs::Record::site))]
pub fn bytes_at(log: &[u8], k: usize) -> RecordBytes
    requires { k < records log.now }
    ensures { (result.kind ≡ kind log.now k)
        × (result.transaction ≡ transaction log.now k)
        × (result.item ≡ item log.now k)
        × (result.site ≡ site log.now k) }
{
    let at = k * RECORD_BYTES;
    RecordBytes {
        kind: log[at],
        transaction: log[at + 1],
        item: log[at + 2],
        site: log[at + 3],
    }
}

// A record whose numbers are within the limits. A clause sees in which log it stands, and at which place.
#[derive(Drop)]
pub struct Record<'a> {
    log: &'a [u8],
    place: usize,
}

impl<'a> Model for Record<'a> {
    ghost use Rattle.rules.specs.Record.{Within};
    ghost use Rattle.format.specs.Place.{Place};

    ghost Value = { Place };

    ghost view = { λ r. record { log = r.log.now; place = r.place } };

    ghost invariant = { λ r. Within r.log.now r.place };
}

impl<'a> Record<'a> {
    pub fn at(log: &'a [u8], k: usize) -> Record<'a>
        requires { Within log.now k }
        ensures { result ≡ record { log = log.now; place = k } }
    {
        Record { log, place: k }
    }

    pub fn place(&self) -> usize
        ensures place { result ≡ self.now.place }
        ensures within { Within self.now.log self.now.place }
    {
        self.place
    }

    // Whether it is of this kind.
    #[tactic(auto, unfolding(rules::specs::Record::is_read, rules::specs::Record::is_write, rules::specs::Record::is_commit, rules::specs::Record::read_kind, rules::specs::Record::write_kind, rules::specs::Record::commit_kind))]
    pub fn is(&self, kind: Kind) -> bool
        ensures { result ≡ is_of kind self.now.log self.now.place }
    {
        bytes_at(self.log, self.place).kind == kind as u8
    }

    pub fn transaction(&self) -> usize
        ensures value { result ≡ transaction self.now.log self.now.place }
        ensures below { result < transactions }
        ensures within { Within self.now.log self.now.place }
    {
        usize::from(bytes_at(self.log, self.place).transaction)
    }

    pub fn item(&self) -> usize
        ensures value { result ≡ item self.now.log self.now.place }
        ensures below { result < items }
        ensures within { Within self.now.log self.now.place }
    {
        usize::from(bytes_at(self.log, self.place).item)
    }

    // The number of its copy.
    pub fn copy(&self) -> usize
        ensures value { result ≡ copy_of self.now.log self.now.place }
        ensures below { result < items * sites }
        ensures within { Within self.now.log self.now.place }
    {
        let bytes = bytes_at(self.log, self.place);
        Copy::new(bytes.item, bytes.site).number()
    }
}
