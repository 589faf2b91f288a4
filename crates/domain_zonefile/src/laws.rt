//! Theorems about entries and faults. Each is a function without a body: call it for its contract.
ghost use Rattle.std.specs.Prelude.{ℕ, ◌<◌, ◌≤◌, length};
ghost use Rattle.std.specs.List.{AllByRecursion};
ghost use Rattle.domain_octets.specs.Octets.{Octets};
ghost use Rattle.domain_zonefile.specs.Entries.{tokens_at, next_at, IsOfFile};

/// The octets of each token are those of the file at its place, behind its opening quote if it has
/// one.
#[tactic(auto, using(crate::proofs::LawLemmas::tokens_of_file))]
pub fn tokens_are_of_their_file()
    ensures { (file : Octets) (start : ℕ) → AllByRecursion (IsOfFile file) (tokens_at file start) }
{}

/// Reading goes on behind the start of each entry, and within the file. So it ends, and reads no
/// fault twice.
#[tactic(auto, using(crate::proofs::EntryLemmas::next_past))]
pub fn reading_goes_on()
    ensures onward { (file : Octets) (start : ℕ) → start < length file
        → start < next_at file start }
    ensures within { (file : Octets) (start : ℕ) → start < length file
        → next_at file start ≤ length file }
{}
