//! Laws that relate the lines in a report to `denial`, and its notes to the records. To use a law,
//! call it in a function body.
ghost use Rattle.std.specs.{Prelude.{◌≡◌, ◌⊎◌, ℕ, List, [], ◌∷◌, ◌++◌, length}, List.AllByRecursion};
ghost use Rattle.std.specs.Prelude.{false, true, Option, Some};
ghost use Rattle.domain_octets.specs.Octets.{Octets};
ghost use Rattle.domain_names.specs.Name.{Name};
ghost use Rattle.domain_borrowed.specs.Data.{RawRecord};
ghost use Rattle.domain_groups.specs.declared.error.SigningError.{SigningError, TheVariants.Nsec3HashingError};
ghost use Rattle.domain_hasher.specs.declared.error.Nsec3HashError.TheVariants.{Hasher};
ghost use Rattle.domain_nsec3.specs.View.{HasherAnswer};
ghost use Rattle.denial_program.specs.{Answer.HasNoNsec3s, Command.Params, Listing.{Give, IsFirstBad}};
ghost use Rattle.denial_program.specs.declared.fault.DenialFault.TheVariants.{Signing};
ghost use Rattle.lint_program.specs.{Alike.AreTold, Faults.{fails, AreFaultless, AreFaultsOf}};
ghost use Rattle.lint_program.specs.Hashed.{nsec3_fault_text, AreHashable, IsNsec3Rejection};
ghost use Rattle.lint_program.specs.{Report.{AreLinted, AreRefused}, Notes.{earlier, look_of, AreNoted, Deserves}};
ghost use Rattle.lint_program.specs.Notes.{Found, HasMark, IsDeserved, Mark};
ghost use Rattle.lint_program.specs.declared.{faults.ZoneFaults.ZoneFaults, looks.{Look.Look, Reason.Reason}};

/// If a report has bad lines, the first is the line for which `run_denial` and `run_judge` reject
/// the input. If it has none, they read records from the input.
#[tactic(auto, using(crate::proofs::FirstLemmas::first_told, crate::proofs::FirstLemmas::none_from))]
pub fn the_first_told_is_refused()
    ensures first { (lines : List Octets) (n : ℕ) (more numbers : List ℕ)
        (records : List RawRecord) → AreLinted 1 lines (n ∷ more) numbers records
        → IsFirstBad lines n }
    ensures none { (lines : List Octets) (numbers : List ℕ) (records : List RawRecord)
        → AreLinted 1 lines [] numbers records → Give lines records }
{}

/// Each note that a look finds is about a record that deserves it, by the number of its line. Each
/// record that deserves a note has one.
#[tactic(auto, using(crate::proofs::NoteLemmas::told_deserved, crate::proofs::NoteLemmas::deserved_told))]
pub fn what_is_noted_is_deserved()
    ensures told { (l : Look) (a : Name) (records : List RawRecord) (numbers : List ℕ)
        (marks : List Mark) → Found l a records numbers marks
        → AllByRecursion (IsDeserved l a records numbers) marks }
    ensures stands { (l : Look) (a : Name) (records : List RawRecord) (numbers : List ℕ)
        (marks : List Mark) → Found l a records numbers marks
        → (before after : List RawRecord) (borrowed : RawRecord)
        → records ≡ before ++ borrowed ∷ after
        → (left right : List ℕ) (n : ℕ) → numbers ≡ left ++ n ∷ right
        → length left ≡ length before → (reason : Reason) → look_of reason ≡ l
        → Deserves reason a (earlier l a before borrowed) borrowed → HasMark marks n }
{}

/// `zone:` lines come for exactly the faults for which `denial nsec` rejects the records. If a note
/// has such a line, the records are rejected. If no line of the input is bad and no note has one,
/// their zone has no fault. Records that are rejected are not accepted.
#[tactic(auto, using(crate::proofs::ToldLemmas::failing_refused, crate::proofs::ToldLemmas::all_told, crate::proofs::HashedLemmas::not_both))]
pub fn zone_lines_are_faults()
    ensures each { (records : List RawRecord) (a : Name) (faults : ZoneFaults) (reason : Reason)
        → AreFaultsOf records a faults → fails faults reason ≡ true → AreRefused records a }
    ensures all { (a : Name) (lines : List Octets) (records : List RawRecord) (numbers : List ℕ)
        (marks : List Mark) → AreLinted 1 lines [] numbers records
        → AreNoted true a records numbers marks → (faults : ZoneFaults)
        → AllByRecursion (λ m. fails faults m.reason ≡ false) marks
        → AreFaultsOf records a faults → AreFaultless records a }
    ensures apart { (records : List RawRecord) (a : Name)
        → AreRefused records a → AreFaultless records a → ⊥ }
{}

/// The fault of hashing in a report is the one for which `denial nsec3` rejects the records with
/// the same parameters. If the records have no fault of an NSEC chain, and neither a fault of
/// hashing nor names with the same hash are reported, `denial nsec3` rejects them only if the
/// hasher fails.
#[tactic(auto, using(crate::proofs::HashedLemmas::one_nsec3_fault, crate::proofs::HashedLemmas::hashed_told))]
pub fn hashing_lines_are_faults()
    ensures each { (answers : HasherAnswer) (given : List RawRecord) (a : Name) (p : Params)
        (fault : Option SigningError) (e : SigningError)
        → IsNsec3Rejection answers given a (Some p) fault
        → HasNoNsec3s answers given a p (Signing e) → fault ≡ Some e }
    ensures all { (answers : HasherAnswer) (given : List RawRecord) (a : Name) (p : Params)
        (fault : Option SigningError) → IsNsec3Rejection answers given a (Some p) fault
        → AreTold answers given a (Some p) [] → AreFaultless given a
        → nsec3_fault_text fault ≡ [] → AreHashable answers given a p
        ⊎ ((n : ℕ) × HasNoNsec3s answers given a p (Signing (Nsec3HashingError (Hasher n)))) }
{}
