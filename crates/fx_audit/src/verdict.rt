/// What is said of a report. Entries, shells, transactions and retries are numbered from 0.
#[derive(Clone, Copy, Debug, PartialEq, Eq)]
pub enum Verdict {
    Yes,
    /// It has not the form of a report: the first line that goes wrong, from 1.
    BadLine(u64),
    /// The first entry with which the order is not legal.
    Order(u64),
    /// The first entry that tells other outputs or another end than its transaction has.
    Answer(u64),
    /// The first transaction that is in no entry, of the least shell that lacks one.
    Missing { shell: u32, txn: u32 },
    /// The first retry with which the retries can't have been.
    Retry(u64),
}
