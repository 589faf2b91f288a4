//! The command that the arguments of the program spell.
ghost use Rattle.std.specs.Prelude.{◌≡◌, ◌⊎◌, ℕ, ◌∷◌, codes, IfErr, IfNone, IfOk, IfSome, map, string_bytes};
ghost use Rattle.domain_names.specs.Text.{NameText, IsNoName, ScanFault};
ghost use Rattle.domain_bitmap.specs.Text.{SaltText};
ghost use Rattle.domain_octets.specs.Octets.{Octets};
ghost use Rattle.denial_program.specs.Command.{Asks, AsksAbout, FlagsText, IsNoCommand, IsUsage, Params, Spell, SpellQuestion};
ghost use Rattle.denial_program.specs.declared.command.Question.{Question};
ghost use Rattle.denial_program.specs.declared.fault.DenialFault.TheVariants.{OutOfMemory};

use crate::fault::DenialFault;
use crate::line::{ZoneName, ZoneOctets};
use domain_base::{FromToken, IterScanner, Nsec3HashAlgorithm, Rtype, ScanError};
use domain_bitmap::Nsec3Salt;
use domain_rdata::Nsec3param;
use std::alloc::Global;

/// The parameters of an NSEC3 chain.
pub type Nsec3Params = Nsec3param<ZoneOctets>;

/// A question: a zone by its apex, and a name and a type to look up in it.
#[derive(Drop)]
pub struct Question {
    /// The apex.
    pub apex: ZoneName,
    /// The name.
    pub name: ZoneName,
    /// The type.
    pub rtype: Rtype,
}

/// A command.
#[derive(Drop)]
pub enum Command {
    /// Write the chain of the zone with this apex: NSEC3 records with these parameters, or NSEC
    /// records without any.
    Chain(ZoneName, Option<Nsec3Params>),
    /// Write what NSEC records prove.
    CheckNsec(Question),
    /// Write what NSEC3 records prove.
    CheckNsec3(Question),
}

/// Returns the name that an argument spells.
///
/// # Errors
///
/// `Usage` if it spells none, and `OutOfMemory` if there is no memory.
pub fn name_of(alloc: Global, word: &str) -> Result<ZoneName, DenialFault>
    ensures ok { IfOk result (NameText word.now) }
    ensures err { IfErr result (IsUsage (IsNoName word.now)) }
{
    match ZoneName::from_str(alloc, word) {
        Ok(name) => Ok(name),
        Err(ScanError::OutOfMemory) => Err(DenialFault::OutOfMemory),
        Err(_) => Err(DenialFault::Usage),
    }
}

/// Returns the value that an argument spells.
fn value_of<T: FromToken>(word: &str) -> Result<T, DenialFault>
    ensures ok { IfOk result (T.spells word.now) }
    ensures err { IfErr result (λ e. (e ≡ DenialFault.Usage)
        × ((fault : ScanFault) × T.refuses fault word.now)) }
{
    match T::from_token(word) {
        Ok(value) => Ok(value),
        Err(_) => Err(DenialFault::Usage),
    }
}

/// Returns the salt that an argument spells (RFC 5155, section 4.3).
#[tactic(auto, using(domain_bitmap::proofs::TextLemmas::salt_excludes))]
fn salt_of(alloc: Global, word: &str) -> Result<Nsec3Salt<ZoneOctets>, DenialFault>
    ensures ok { IfOk result (SaltText word.now) }
    ensures err { IfErr result (IsUsage ((salt : Octets) → SaltText word.now salt → ⊥)) }
{
    let words = [word];
    let mut scanner = IterScanner::<ZoneOctets>::new(&words);
    match Nsec3Salt::scan(alloc, &mut scanner) {
        Ok(salt) => Ok(salt),
        Err(ScanError::OutOfMemory) => Err(DenialFault::OutOfMemory),
        Err(_) => Err(DenialFault::Usage),
    }
}

/// Returns the flags of an optional last argument (RFC 5155, section 3.1.2).
#[tactic(auto, using(std::proofs::lemmas::Grind::common_steps, crate::proofs::RunLemmas::same_text))]
fn flags_of(words: &[String]) -> Option<u8>
    ensures some { IfSome result (FlagsText (map string_bytes words.now)) }
    ensures none { IfNone result
        ((flags : ℕ) → FlagsText (map string_bytes words.now) flags → ⊥) }
{
    match words {
        [] => Some(0),
        [word] if word.as_str() == "optout" => Some(1),
        _ => None,
    }
}

/// Returns the command of `nsec` with these arguments.
fn nsec_command(alloc: Global, words: &[String]) -> Result<Command, DenialFault>
    ensures ok { IfOk result (Asks (codes "nsec" ∷ map string_bytes words.now)) }
    ensures err { IfErr result (IsUsage (IsNoCommand (codes "nsec" ∷ map string_bytes words.now))) }
{
    let [apex] = words else {
        return Err(DenialFault::Usage);
    };
    Ok(Command::Chain(name_of(alloc, apex.as_str())?, None))
}

/// Returns the parameters with these iterations and this salt (RFC 5155, section 4.3), and with the
/// flags of an optional last argument.
///
/// # Errors
///
/// `Usage` if an argument is malformed, and `OutOfMemory` if there is no memory.
pub fn parameters_of(
    alloc: Global,
    iterations: &str,
    salt: &str,
    last: &[String],
) -> Result<Nsec3Params, DenialFault>
    ensures ok { IfOk result (Spell iterations.now salt.now (map string_bytes last.now)) }
    ensures err { IfErr result (IsUsage ((p : Params)
        → Spell iterations.now salt.now (map string_bytes last.now) p → ⊥)) }
{
    let Some(flags) = flags_of(last) else {
        return Err(DenialFault::Usage);
    };
    let iterations: u16 = value_of(iterations)?;
    let salt = salt_of(alloc, salt)?;
    Ok(Nsec3param::new(Nsec3HashAlgorithm::SHA1, flags, iterations, salt))
}

/// Returns the command of `nsec3` with these arguments.
fn nsec3_command(alloc: Global, words: &[String]) -> Result<Command, DenialFault>
    ensures ok { IfOk result (Asks (codes "nsec3" ∷ map string_bytes words.now)) }
    ensures err { IfErr result (IsUsage
        (IsNoCommand (codes "nsec3" ∷ map string_bytes words.now))) }
{
    let [apex, iterations, salt, last @ ..] = words else {
        return Err(DenialFault::Usage);
    };
    let apex = name_of(alloc, apex.as_str())?;
    let parameters = parameters_of(alloc, iterations.as_str(), salt.as_str(), last)?;
    Ok(Command::Chain(apex, Some(parameters)))
}

/// Returns the question that these arguments spell.
///
/// # Errors
///
/// `Usage` if an argument does not spell a name or a type, and `OutOfMemory` if there is no memory.
pub fn question_of(
    alloc: Global,
    apex: &str,
    name: &str,
    rtype: &str,
) -> Result<Question, DenialFault>
    ensures ok { IfOk result (SpellQuestion apex.now name.now rtype.now) }
    ensures err { IfErr result (IsUsage ((q : Question)
        → SpellQuestion apex.now name.now rtype.now q → ⊥)) }
{
    let rtype: Rtype = value_of(rtype)?;
    let apex = name_of(alloc, apex)?;
    let name = name_of(alloc, name)?;
    Ok(Question { apex, name, rtype })
}

/// Returns the command of `check` with these arguments.
fn check_command(alloc: Global, words: &[String]) -> Result<Command, DenialFault>
    ensures ok { IfOk result (Asks (codes "check" ∷ map string_bytes words.now)) }
    ensures err { IfErr result (λ e. ((e ≡ DenialFault.Usage)
        × IsNoCommand (codes "check" ∷ map string_bytes words.now))
        ⊎ (e ≡ OutOfMemory)) }
{
    let [kind, apex, name, rtype] = words else {
        return Err(DenialFault::Usage);
    };
    let question = question_of(alloc, apex.as_str(), name.as_str(), rtype.as_str())?;
    match kind.as_str() {
        "nsec" => Ok(Command::CheckNsec(question)),
        "nsec3" => Ok(Command::CheckNsec3(question)),
        _ => Err(DenialFault::Usage),
    }
}

/// Returns the command that the arguments of the program spell.
///
/// # Errors
///
/// `Usage` if and only if they are no command, and `OutOfMemory` if there is no memory.
pub fn command_of(alloc: Global, words: &[String]) -> Result<Command, DenialFault>
    ensures ok { IfOk result (Asks (map string_bytes words.now)) }
    ensures err { IfErr result (IsUsage (IsNoCommand (map string_bytes words.now))) }
{
    let [first, rest @ ..] = words else {
        return Err(DenialFault::Usage);
    };
    match first.as_str() {
        "nsec" => nsec_command(alloc, rest),
        "nsec3" => nsec3_command(alloc, rest),
        "check" => check_command(alloc, rest),
        _ => Err(DenialFault::Usage),
    }
}

/// Returns the apex that the arguments of the program name.
///
/// # Errors
///
/// `Usage` if and only if they are no command, and `OutOfMemory` if there is no memory.
pub fn apex_of(alloc: Global, words: &[String]) -> Result<ZoneName, DenialFault>
    ensures ok { IfOk result (AsksAbout (map string_bytes words.now)) }
    ensures err { IfErr result (IsUsage (IsNoCommand (map string_bytes words.now))) }
{
    match command_of(alloc, words)? {
        Command::Chain(apex, _) => Ok(apex),
        Command::CheckNsec(question) => Ok(question.apex),
        Command::CheckNsec3(question) => Ok(question.apex),
    }
}
