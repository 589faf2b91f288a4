//! NSEC3 chains of small zones (RFC 5155, section 7.1). The vectors also ask what their records
//! prove and answer as a whole (RFC 5155, section 8), and which of them a server answers with (RFC
//! 5155, section 7.2).
use super::*;
use std::fmt::Debug;

/// A chain with its NSEC3PARAM record.
type Made = Nsec3Records<OwnName, Vec<u8>>;

/// A chain that lends its records.
type Chain<'a> = Nsec3Chain<'a, Vec<u8>>;

/// The configuration of the chains here.
type Config = GenerateNsec3Config<Vec<u8>, DefaultSorter>;

/// The configuration of denial.
type Denial = DenialConfig<Vec<u8>, DefaultSorter>;

/// The greatest number of iterations that is allowed for answers.
const MOST_ITERATIONS: u16 = 12;

/// Adds a chain, each record on a line, or why there is none.
fn show(made: Result<Made, ChainError>, answers: &mut Answers) -> Answered {
    let made = answers.ok(made)?;
    answers.show_records(made.nsec3s.as_slice());
    answers.show("record", &made.nsec3param)
}

/// Adds what records say if they are read for each name. If they say something else when they are
/// read once, adds a line about it.
fn say_both<T: Debug + PartialEq, E: Debug + PartialEq>(
    label: &str,
    each: &Result<T, E>,
    once: &Result<T, E>,
    answers: &mut Answers,
) -> Answered {
    if each != once {
        answers.echo("  another where the records are read once");
    }
    answers.debug_made(label, each)
}

/// Adds whether a copy of a configuration of denial is equal to it.
fn copied(label: &str, of: &Denial, answers: &mut Answers) -> Answered {
    match of.clone() {
        Ok(copy) => answers.show(label, &(copy == *of)),
        Err(error) => answers.debug(label, &error),
    }
}

/// Returns whether the places of an answer's records are those that are picked, each once.
fn are_places(denial: &Nsec3Denial) -> bool {
    let (first, second, third) = (
        denial.of_encloser,
        denial.of_next_closer,
        denial.of_wildcard,
    );
    let is_new = third != first && third != second;
    let second = if second == first { None } else { second };
    denial.places() == [first, second, if is_new { third } else { None }]
}

/// Adds the hash of each record of a chain and the name that it makes, and none past the last.
fn hashes(chain: &Chain<'_>, answers: &mut Answers) {
    for place in 0..=chain.len() {
        answers.octets("hash", &chain.hash_at(place).unwrap_or_default());
        if let Some(record) = chain.lend(place) {
            answers.show_made("owner", &record.owner().make::<OwnName>(answers.alloc));
        }
    }
}

/// What the chain of a zone is made from: its apex, the configuration of the generator, and a
/// hasher.
#[derive(Drop)]
struct Hashing<'a, H>(&'a OwnName, &'a Config, &'a H);

impl<H: Nsec3Hasher> Hashing<'_, H> {
    /// Adds the owner of the NSEC3 record of a name, or why there is none.
    fn owner(&self, word: &str, answers: &mut Answers) -> Answered {
        let (name, params) = (answers.name(word)?, &self.1.params);
        let owner = mk_hashed_nsec3_owner_name(
            answers.alloc,
            &name,
            params.hash_algorithm(),
            params.iterations(),
            params.salt(),
            self.0,
            self.2,
        );
        answers.show_made("owner", &owner)
    }

    /// Adds why there is no chain, and why NSEC3 records have no owner, each with its own error.
    fn faults(&self, words: &[&str], answers: &mut Answers) -> Answered {
        let (alloc, zone) = (answers.alloc, answers.zone(words)?);
        let groups = zone.owner_rrs();
        if groups.is_one_class() {
            let made: Result<Made, SigningError> = generate_nsec3s(
                alloc, self.0, groups, self.1, self.2,
            );
            answers.fault("SigningError", &made);
        }
        for record in zone.as_slice() {
            self.owner_fault(record.owner(), answers);
        }
        Some(())
    }

    /// Adds why the NSEC3 record of a name has no owner.
    fn owner_fault(&self, name: &OwnName, answers: &mut Answers) -> Answered {
        let params = &self.1.params;
        let owner: Result<OwnName, Nsec3HashError> = mk_hashed_nsec3_owner_name(
            answers.alloc,
            name,
            params.hash_algorithm(),
            params.iterations(),
            params.salt(),
            self.0,
            self.2,
        );
        answers.fault("Nsec3HashError", &owner)
    }

    /// Adds whether copies of configurations of denial are equal to them.
    fn copies(&self, answers: &mut Answers) -> Answered {
        copied("already present", &Denial::AlreadyPresent, answers);
        copied("NSEC", &Denial::default(answers.alloc), answers);
        copied(
            "NSEC3",
            &Denial::Nsec3(answers.ok(self.1.clone())?),
            answers,
        )
    }

    /// Adds the chain of records in any order, or why they have none.
    fn of_any_order(&self, words: &[&str], answers: &mut Answers) -> Answered {
        let (alloc, records) = (answers.alloc, answers.records(words)?);
        let made = generate_nsec3s_of_records(alloc, self.0, records, self.1, self.2);
        show(made, answers)
    }

    /// Adds the chain of sorted records, made all at once. Its sorter has memory or has none.
    fn made(&self, form: &str, words: &[&str], answers: &mut Answers) -> Answered {
        let (alloc, zone) = (answers.alloc, answers.zone(words)?);
        let groups = zone.owner_rrs();
        if !groups.is_one_class() {
            return answers.ok(Err(ChainError::MixedClasses));
        }
        let made = if form == "unsorted" {
            let config = GenerateNsec3Config::<Vec<u8>, RefusingSorter>::default(alloc);
            generate_nsec3s(alloc, self.0, groups, &config, self.2)
        } else {
            generate_nsec3s(alloc, self.0, groups, self.1, self.2)
        };
        show(made.map_err(ChainError::from), answers)
    }

    /// Adds what is picked from a chain to answer each name and type. For the form `needed`, adds
    /// only what a response needs of it.
    fn deny(
        &self,
        form: &str,
        chain: &Chain<'_>,
        asked: &[&str],
        answers: &mut Answers,
    ) -> Answered {
        for words in asked.split(is_slash) {
            let (name, rtype) = answers.question(words)?;
            let denial = deny_nsec3(answers.alloc, chain, &name, rtype, self.2);
            if let Some(denial) = answers.ok(denial) {
                answers.debug("answer", &denial.answer);
                if !are_places(&denial) {
                    answers.debug("other places", &denial.places());
                }
                let denial = if form == "needed" {
                    denial.needed(chain)
                } else {
                    denial
                };
                say_owners!(
                    answers, chain, denial: "closest encloser": of_encloser,
                    "next closer name": of_next_closer, "wildcard": of_wildcard
                );
            }
        }
        Some(())
    }

    /// Adds the records that a chain lends: all, or those that answer questions. If there is no
    /// chain, adds why.
    fn lent(&self, form: &str, words: &[&str], answers: &mut Answers) -> Answered {
        let (listed, asked) = halves(words, ":");
        let zone = answers.zone(listed)?;
        let groups = zone.owner_rrs();
        if !groups.is_one_class() {
            return answers.ok(Err(ChainError::MixedClasses));
        }
        let made = Nsec3Chain::generate(answers.alloc, self.0, groups, self.1, self.2);
        let chain = answers.ok(made.map_err(ChainError::from))?;
        if form == "deny" || form == "denyout" || form == "needed" {
            return self.deny(form, &chain, asked, answers);
        }
        say_lent!(answers, chain);
        if form == "hashes" {
            hashes(&chain, answers);
        }
        answers.show("record", chain.nsec3param())
    }

    /// Adds what records prove about a name and a type, or what they answer as a whole. The form
    /// `expanded` is about a name that was expanded from a wildcard. It has the labels that
    /// signatures give in place of a type.
    fn ask(&self, form: &str, chain: &Made, words: &[&str], answers: &mut Answers) -> Answered {
        let (alloc, apex, hasher, most) = (answers.alloc, self.0, self.2, MOST_ITERATIONS);
        let index = answers.ok(Nsec3Index::new(alloc, apex, chain))?;
        if form == "expanded" {
            let name = answers.name(word(words, 0))?;
            let labels = word(words, 1).parse::<usize>().unwrap_or(0);
            let answer = judge_nsec3_expansion(alloc, apex, chain, &name, labels, most, hasher);
            let other = judge_nsec3_index_expansion(alloc, &index, &name, labels, most, hasher);
            return say_both("answer", &answer, &other, answers);
        }
        if form == "within" {
            let (name, rtype) = answers.question(words.get(1..).unwrap_or(&[]))?;
            let limits = Nsec3Limits {
                names: word(words, 0).parse::<usize>().unwrap_or(0),
                ..Nsec3Limits::default()
            };
            let answer = judge_nsec3_within(alloc, &index, &name, rtype, &limits, hasher);
            return answers.debug_made("within", &answer);
        }
        let (name, rtype) = answers.question(words)?;
        if form == "verdict" {
            let verdict = check_nsec3(alloc, apex, chain, &name, rtype, hasher);
            let other = check_nsec3_index(alloc, &index, &name, rtype, hasher);
            say_both("verdict", &verdict, &other, answers)
        } else {
            let answer = judge_nsec3(alloc, apex, chain, &name, rtype, most, hasher);
            let other = judge_nsec3_index(alloc, &index, &name, rtype, most, hasher);
            say_both("answer", &answer, &other, answers)
        }
    }

    /// Adds what records prove about each name, or what they answer as a whole.
    fn judge(&self, form: &str, words: &[&str], answers: &mut Answers) -> Answered {
        let (listed, asked) = halves(words, ":");
        let nsec3s = records_of!(answers, Nsec3, listed);
        let owner = answers.ok(self.0.clone())?;
        let params = answers.ok(self.1.params.clone())?;
        let param = Record::new(owner, Class::IN, Ttl::from_secs(0), params);
        let chain = Nsec3Records::new(nsec3s, param);
        for words in asked.split(is_slash) {
            self.ask(form, &chain, words, answers)?;
        }
        Some(())
    }

    /// Answers a vector.
    fn answer(&self, form: &str, words: &[&str], answers: &mut Answers) -> Answered {
        match form {
            "owner" => self.owner(word(words, 0), answers),
            "faults" => self.faults(words, answers),
            "copies" => self.copies(answers),
            "any" => self.of_any_order(words, answers),
            "borrowed" | "hashes" | "deny" | "denyout" | "needed" => {
                self.lent(form, words, answers)
            }
            "verdict" | "judge" | "expanded" | "within" => self.judge(form, words, answers),
            _ => self.made(form, words, answers),
        }
    }
}

/// Returns the configuration of the generator for a form, with a salt that a word spells.
fn config(form: &str, iterations: u16, salt: &str, answers: &mut Answers) -> Given<Config> {
    let salt = answers.ok(Nsec3Salt::scan(answers.alloc, &mut Tokens::new(&[salt])))?;
    let params = Nsec3param::new(Nsec3HashAlgorithm::SHA1, 0, iterations, salt);
    let config = Config::new(params);
    if form == "dnskey" {
        return Some(config);
    }
    let config = config.without_assuming_dnskeys_will_be_added();
    Some(match form {
        "out" => config.with_opt_out(),
        "denyout" => answers.ok(config.clone())?.with_opt_out(),
        "kept" => config
            .with_opt_out()
            .without_opt_out_excluding_owner_names_of_unsigned_delegations(),
        "dname" => config.with_occlude_below_dname(),
        "fixed" => config.with_ttl_mode(Nsec3ParamTtlMode::fixed(Ttl::from_secs(60))),
        "minimum" => config.with_ttl_mode(Nsec3ParamTtlMode::soa_minimum()),
        "soa" => config.with_ttl_mode(Nsec3ParamTtlMode::soa()),
        _ => config,
    })
}

/// Answers a vector on chains by hashes. It has a form, the apex, and a table of names and hashes,
/// or `sha1` with iterations and a salt. The records or the name follow after a colon, and
/// questions after another.
pub fn answer(form: &str, words: &[&str], answers: &mut Answers) -> Answered {
    let apex = &answers.name(word(words, 0))?;
    let (hashing, given) = halves(words.get(1..).unwrap_or_default(), ":");
    let (first, salt) = (word(hashing, 0), word(hashing, 2));
    if first == "sha1" {
        let iterations = word(hashing, 1).parse::<u16>().unwrap_or(0);
        let config = &config(form, iterations, salt, answers)?;
        return Hashing(apex, config, &Sha1Hasher).answer(form, given, answers);
    }
    let hasher = &make_table(hashing, answers)?;
    let config = &config(form, 0, "-", answers)?;
    Hashing(apex, config, hasher).answer(form, given, answers)
}
