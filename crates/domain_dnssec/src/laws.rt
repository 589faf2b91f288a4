//! Laws of names, chains and sorting, for callers. To use a law, call it in a function body.
ghost use Rattle.std.specs.Prelude.{◌≡◌, ℕ, All, false, true, List};
ghost use Rattle.domain_record.specs.declared.record.Record.{Record};
ghost use Rattle.domain_names.specs.Name.{Name};
ghost use Rattle.domain_checker.specs.Verdict.{IsSameLink, IsPairedIn, IsProved};
ghost use Rattle.domain_checker.specs.declared.verdict.Verdict.{Verdict};
ghost use Rattle.domain_nsec.specs.Chain.{Link};
ghost use Rattle.domain_nsec.specs.declared.config.GenerateNsecConfig.{GenerateNsecConfig};
ghost use Rattle.domain_nsec3.specs.Chain.{ChainConfig, HashedLink, ParamRecord};
ghost use Rattle.domain_nsec3.specs.declared.config.Nsec3ParamTtlMode.{Nsec3ParamTtlMode};
ghost use Rattle.domain_checker.specs.{HashedVerdict.HashedRecords, Verdict.IsHashedAlike};
ghost use Rattle.domain_answer.specs.{Reading.IsAnswered, declared.answer.Answer.Answer};
ghost use Rattle.domain_answer.specs.HashedReading.{IsHashedAnswered};
ghost use Rattle.domain_dnssec.specs.AnyOrder.{IsAnswerOf, IsChainOf, IsProvedAnswerOf, IsProvedOf};
ghost use Rattle.domain_dnssec.specs.AnyOrder.{IsHashedAnswerOf, IsProvedHashedAnswerOf};
ghost use Rattle.domain_dnssec.specs.AnyOrder.{IsHashedChainOf, IsSaidOf, seen};

use domain_answer::laws as answers;
pub use domain_answer::laws::{chains_leave_out_names_below_dname, opt_out_leaves_names_open};
use domain_any_order::laws::sorted_owners_never_descend;
pub use domain_any_order::laws::{
    octets_have_the_chain_of_their_data, sorting_keeps_classes_and_records,
    sorting_keeps_owners_and_types,
};
use domain_base::{CanonicalOrd, ToName};
pub use domain_bitmap::laws::built_bitmaps_give_their_types;
use domain_checker::laws::whole_chains_prove_all;
pub use domain_nsec::laws::{chains_mean_the_zone, types_ignore_case};
use domain_record::ZoneData;
pub use domain_zone::laws::{covering_ignores_case, owners_never_descend};

/// Relates a verdict on records of a chain to the records that the chain was made from, which may
/// be in any order. The verdict is what the chain's records prove about the zone of those records.
/// For the whole chain, as it was made or borrowed, it is what the zone says.
pub fn verdicts_tell_of_records<N: ToName, D: ZoneData + CanonicalOrd>()
    ensures some { (given : List (Record N D)) (apex : Name) (config : GenerateNsecConfig)
        (links listed : List Link) (x : Name) (t : ℕ) (verdict : Verdict)
        → config.occlude_below_dname ≡ false
        → IsChainOf (seen N.labels D.rtype D.minimum D.canonical_cmp) given apex config links
        → All (IsPairedIn IsSameLink links) listed → IsProved listed apex x t verdict
        → IsProvedOf (seen N.labels D.rtype D.minimum D.canonical_cmp) given apex config listed x t
        verdict }
    ensures all { (given : List (Record N D)) (apex : Name) (config : GenerateNsecConfig)
        (links listed : List Link) (x : Name) (t : ℕ) (verdict : Verdict)
        → config.occlude_below_dname ≡ false
        → IsChainOf (seen N.labels D.rtype D.minimum D.canonical_cmp) given apex config links
        → listed ≡ links → IsProved listed apex x t verdict
        → IsSaidOf (seen N.labels D.rtype D.minimum D.canonical_cmp) given apex config x t verdict }
{
    sorted_owners_never_descend::<N, D>();
    whole_chains_prove_all();
}

/// Relates a whole answer from records of a chain to the records that the chain was made from,
/// which may be in any order. The answer is what the chain's records prove about the zone of those
/// records. For the whole chain, as it was made or borrowed, it is what the zone says. The chain
/// must leave out the names below an owner of a DNAME record.
pub fn answers_tell_of_records<N: ToName, D: ZoneData + CanonicalOrd>()
    ensures some { (given : List (Record N D)) (apex : Name) (config : GenerateNsecConfig)
        (links listed : List Link) (x : Name) (t : ℕ) (answer : Answer)
        → config.occlude_below_dname ≡ true
        → IsChainOf (seen N.labels D.rtype D.minimum D.canonical_cmp) given apex config links
        → All (IsPairedIn IsSameLink links) listed → IsAnswered listed apex x t answer
        → IsProvedAnswerOf (seen N.labels D.rtype D.minimum D.canonical_cmp) given apex config
        listed x t answer }
    ensures all { (given : List (Record N D)) (apex : Name) (config : GenerateNsecConfig)
        (links listed : List Link) (x : Name) (t : ℕ) (answer : Answer)
        → config.occlude_below_dname ≡ true
        → IsChainOf (seen N.labels D.rtype D.minimum D.canonical_cmp) given apex config links
        → listed ≡ links → IsAnswered listed apex x t answer
        → IsAnswerOf (seen N.labels D.rtype D.minimum D.canonical_cmp) given apex config x t
        answer }
{
    sorted_owners_never_descend::<N, D>();
    answers::whole_chains_prove_all();
    answers::chains_leave_out_names_below_dname();
}

/// Relates a whole answer from NSEC3 records of a chain to the records that the chain was made
/// from, which may be in any order, as `answers_tell_of_records` does. The hasher and the
/// parameters must be those of the chain.
pub fn hashed_answers_tell_of_records<N: ToName, D: ZoneData + CanonicalOrd>()
    ensures some { (given : List (Record N D)) (R : HashedRecords) (config : ChainConfig)
        (mode : Nsec3ParamTtlMode) (links : List HashedLink) (param : ParamRecord) (x : Name)
        (t : ℕ) (answer : Answer) → config.occlude_below_dname ≡ true → config.hash ≡ R.hash
        → config.parameters ≡ R.parameters
        → IsHashedChainOf (seen N.labels D.rtype D.minimum D.canonical_cmp) given R.apex config
        mode links param
        → All (IsPairedIn IsHashedAlike links) R.links → IsHashedAnswered R x t answer
        → IsProvedHashedAnswerOf (seen N.labels D.rtype D.minimum D.canonical_cmp) given R config
        x t answer }
    ensures all { (given : List (Record N D)) (R : HashedRecords) (config : ChainConfig)
        (mode : Nsec3ParamTtlMode) (links : List HashedLink) (param : ParamRecord) (x : Name)
        (t : ℕ) (answer : Answer) → config.occlude_below_dname ≡ true → config.hash ≡ R.hash
        → config.parameters ≡ R.parameters
        → IsHashedChainOf (seen N.labels D.rtype D.minimum D.canonical_cmp) given R.apex config
        mode links param
        → R.links ≡ links → IsHashedAnswered R x t answer
        → IsHashedAnswerOf (seen N.labels D.rtype D.minimum D.canonical_cmp) given R config x t
        answer }
{
    sorted_owners_never_descend::<N, D>();
    answers::hashed_whole_chains_prove_all();
    answers::chains_leave_out_names_below_dname();
}
