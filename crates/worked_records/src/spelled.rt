//! The data and records that the words of a vector spell.
use domain_base::{Class, FromToken, Rtype, ScanError, Scanner, Ttl};
use domain_octets::TryClone;
use domain_rdata::ZoneRecordData;
use domain_record::Record;
use domain_records::SortedRecords;
use worked_lines::{Answers, Given, OwnName, Tokens, given, is_slash};

/// Data of any type, with its own octets.
pub type Data = ZoneRecordData<Vec<u8>, OwnName>;

/// A record of one type, with an owner that owns its octets.
pub type Typed<D> = Record<OwnName, D>;

/// A record of any type, with its own octets.
pub type OwnedRecord = Typed<Data>;

/// A sorted set of records.
pub type Zone = SortedRecords<OwnName, Data>;

/// Reads the next token as a type, and all tokens after it as data of that type.
fn scan_data(scanner: &mut Tokens<'_>, answers: &mut Answers) -> Given<Data> {
    let rtype = given!(answers, Rtype::scan(scanner));
    let data = answers.ok(Data::scan_rdata(answers.alloc, rtype, scanner))?;
    if scanner.continues() {
        return answers.ok(Err(ScanError::Custom("tokens are left")));
    }
    Some(data)
}

/// The data and records that words spell. If they spell none, the error ends the answer.
pub trait SpellRecords {
    /// Returns the data that words spell: first its type, then the data in the format of that type.
    fn data(&mut self, words: &[&str]) -> Given<Data>;

    /// Returns the record that words spell: its owner, TTL, class, type and data.
    fn record(&mut self, words: &[&str]) -> Given<OwnedRecord>;

    /// Returns the records that words spell, with `/` between them.
    fn records(&mut self, words: &[&str]) -> Given<Vec<OwnedRecord>>;

    /// Returns the sorted set of the records that words spell.
    fn zone(&mut self, words: &[&str]) -> Given<Zone>;

    /// Returns a copy of the record `of`, whose data is `data` and is known to be of one type.
    fn typed<D: TryClone + Drop>(&mut self, of: &OwnedRecord, data: &D) -> Given<Typed<D>>;
}

impl SpellRecords for Answers {
    fn data(&mut self, words: &[&str]) -> Given<Data> {
        scan_data(&mut Tokens::new(words), self)
    }

    fn record(&mut self, words: &[&str]) -> Given<OwnedRecord> {
        let mut scanner = Tokens::new(words);
        let owner = self.ok(scanner.scan_name(self.alloc))?;
        let ttl = given!(self, Ttl::scan(&mut scanner));
        let class = given!(self, Class::scan(&mut scanner));
        let data = scan_data(&mut scanner, self)?;
        Some(Record::new(owner, class, ttl, data))
    }

    fn records(&mut self, words: &[&str]) -> Given<Vec<OwnedRecord>> {
        let mut records = Vec::new(self.alloc);
        if words.is_empty() {
            return Some(records);
        }
        for tokens in words.split(is_slash) {
            let record = self.record(tokens)?;
            self.own(records.push(record))?;
        }
        Some(records)
    }

    fn zone(&mut self, words: &[&str]) -> Given<Zone> {
        let records = self.records(words)?;
        self.ok(Zone::from_vec(records))
    }

    fn typed<D: TryClone + Drop>(&mut self, of: &OwnedRecord, data: &D) -> Given<Typed<D>> {
        let owner = self.ok(of.owner().clone())?;
        let data = self.ok(data.try_clone())?;
        Some(Record::new(owner, of.class(), of.ttl(), data))
    }
}
