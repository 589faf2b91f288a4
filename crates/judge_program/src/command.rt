//! The command that the arguments of the program spell.
ghost use Rattle.std.specs.Prelude.{◌≡◌, ◌⊎◌, ◌∷◌, [], ℕ, None, IfErr, IfNone, IfOk, IfSome, map, string_bytes};
ghost use Rattle.denial_program.specs.declared.fault.DenialFault.TheVariants.{OutOfMemory};
ghost use Rattle.judge_program.specs.Command.{AsksToJudge, AsksToJudgeAbout, IsNoJudgeCommand, KindText, LabelsText, LimitText, ShownText};
ghost use Rattle.judge_program.specs.declared.command.ChainKind.{ChainKind};
ghost use Rattle.judge_program.specs.declared.command.Nsec3Options.{Nsec3Options};
ghost use Rattle.judge_program.specs.declared.shown.Shown.{Shown};

use crate::shown::Shown;
use denial_program::{DenialFault, Question, ZoneName, question_of};
use domain_base::FromToken;
use std::alloc::Global;

/// The limit of additional iterations of a hash, unless an option sets another. A validator chooses
/// its limit (RFC 9276, section 3.2); common resolvers took 150, before they went lower.
const USUAL_LIMIT: u16 = 150;

/// The options of judging NSEC3 records.
#[derive(Clone, Copy, Debug, PartialEq, Eq)]
pub struct Nsec3Options {
    /// For a name whose records were expanded from a wildcard: the Labels field of the signatures
    /// of these (RFC 4034, section 3.1.3).
    pub labels: Option<u8>,
    /// The limit of additional iterations of a hash.
    pub limit: u16,
}

/// The kind of chain that the records are from.
#[derive(Clone, Copy, Debug, PartialEq, Eq)]
pub enum ChainKind {
    /// NSEC.
    Nsec,
    /// NSEC3, with these options.
    Nsec3(Nsec3Options),
}

/// A command.
#[derive(Drop)]
pub struct Command {
    /// The kind of chain that the records are from.
    pub kind: ChainKind,
    /// The question to the records.
    pub question: Question,
    /// What to print.
    pub shown: Shown,
}

/// Returns what the options ask to print.
#[tactic(auto, using(std::proofs::lemmas::Grind::common_steps, denial_program::proofs::RunLemmas::same_text))]
fn shown_of(options: &[String]) -> Option<Shown>
    ensures some { IfSome result (ShownText (map string_bytes options.now)) }
    ensures none { IfNone result
        ((shown : Shown) → ShownText (map string_bytes options.now) shown → ⊥) }
{
    match options {
        [] => Some(Shown::Answer),
        [option] if option.as_str() == "--why" => Some(Shown::Why),
        [option] if option.as_str() == "--records" => Some(Shown::Records),
        _ => None,
    }
}

/// Returns the limit of iterations that the options set, and what to print.
#[tactic(auto, using(std::proofs::lemmas::Grind::common_steps, denial_program::proofs::RunLemmas::same_text, crate::proofs::RunLemmas::no_limit))]
fn limit_of(options: &[String]) -> Option<(u16, Shown)>
    ensures some { IfSome result (λ p. LimitText (map string_bytes options.now) p.0 p.1) }
    ensures none { IfNone result ((limit : ℕ) (shown : Shown)
        → LimitText (map string_bytes options.now) limit shown → ⊥) }
{
    match options {
        [option, number, more @ ..] if option.as_str() == "--limit" => {
            // RFC 5155, section 4.3.
            let limit = u16::from_token(number.as_str()).ok()?;
            Some((limit, shown_of(more)?))
        }
        _ => Some((USUAL_LIMIT, shown_of(options)?)),
    }
}

/// Returns how the options ask to judge NSEC3 records, and what to print.
#[tactic(auto, using(std::proofs::lemmas::Grind::common_steps, denial_program::proofs::RunLemmas::same_text))]
fn nsec3_options_of(options: &[String]) -> Option<(Nsec3Options, Shown)>
    ensures some { IfSome result (λ p.
        LabelsText (map string_bytes options.now) p.0.labels p.0.limit p.1) }
    ensures none { IfNone result ((asked : Nsec3Options) (shown : Shown)
        → LabelsText (map string_bytes options.now) asked.labels asked.limit shown → ⊥) }
{
    match options {
        [option, number, more @ ..] if option.as_str() == "--labels" => {
            // RFC 4034, section 3.1.3.
            let labels = Some(u8::from_token(number.as_str()).ok()?);
            let (limit, shown) = limit_of(more)?;
            Some((Nsec3Options { labels, limit }, shown))
        }
        _ => {
            let labels = None;
            let (limit, shown) = limit_of(options)?;
            Some((Nsec3Options { labels, limit }, shown))
        }
    }
}

/// Returns the kind of chain that the first argument names, with its options, and what to print.
fn kind_of(word: &str, options: &[String]) -> Option<(ChainKind, Shown)>
    ensures some { IfSome result (λ p. KindText word.now (map string_bytes options.now) p.0 p.1) }
    ensures none { IfNone result ((kind : ChainKind) (shown : Shown)
        → KindText word.now (map string_bytes options.now) kind shown → ⊥) }
{
    match word {
        "nsec" => Some((ChainKind::Nsec, shown_of(options)?)),
        "nsec3" => {
            let (asked, shown) = nsec3_options_of(options)?;
            Some((ChainKind::Nsec3(asked), shown))
        }
        _ => None,
    }
}

/// Returns the command that the arguments of the program spell.
///
/// # Errors
///
/// `Usage` if and only if they are no command, and `OutOfMemory` if there is no memory.
pub fn command_of(alloc: Global, words: &[String]) -> Result<Command, DenialFault>
    ensures ok { IfOk result (AsksToJudge (map string_bytes words.now)) }
    ensures err { IfErr result (λ e.
        ((e ≡ DenialFault.Usage) × IsNoJudgeCommand (map string_bytes words.now))
        ⊎ (e ≡ OutOfMemory)) }
{
    let [word, apex, name, rtype, options @ ..] = words else {
        return Err(DenialFault::Usage);
    };
    let Some((kind, shown)) = kind_of(word.as_str(), options) else {
        return Err(DenialFault::Usage);
    };
    let question = question_of(alloc, apex.as_str(), name.as_str(), rtype.as_str())?;
    Ok(Command {
        kind,
        question,
        shown,
    })
}

/// Returns the apex that the arguments of the program name.
///
/// # Errors
///
/// `Usage` if and only if they are no command, and `OutOfMemory` if there is no memory.
pub fn judged_apex(alloc: Global, words: &[String]) -> Result<ZoneName, DenialFault>
    ensures ok { IfOk result (AsksToJudgeAbout (map string_bytes words.now)) }
    ensures err { IfErr result (λ e.
        ((e ≡ DenialFault.Usage) × IsNoJudgeCommand (map string_bytes words.now))
        ⊎ (e ≡ OutOfMemory)) }
{
    let command = command_of(alloc, words)?;
    Ok(command.question.apex)
}
